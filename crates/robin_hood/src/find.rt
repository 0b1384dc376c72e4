// The walk of a get. It relies on Spread: were the node further on, the slot at which it stops would
// have a higher rank.
ghost use Rattle.std.specs.Prelude.{◌≡◌, ◌<◌, MatchResult};
ghost use Rattle.robin_hood.specs.Layout.{Reaches, Stops};
ghost use Rattle.slots.specs.Slots.{node_at, held, Absent};

use crate::home::{SLOTS, home, rank};
use crate::ring::Ring;

// The slot that holds `node`, or else the slot at which the walk for it stops.
pub(crate) fn find(ring: &Ring, node: u64) -> Result<usize, usize>
    requires some { 0 < node }
    requires room { held ring.now.slots < 1024 }
    ensures walk { MatchResult result (λ at. Reaches ring.now.slots node at × (node_at ring.now.slots at ≡ node)) (λ at. Reaches ring.now.slots node at × Stops ring.now.slots node at) }
    ensures absent { MatchResult result (λ at. at < 1024) (λ _. Absent ring.now.slots node) }
{
    let start = home(node);
    // by steps from the home, and not by slots: a resident's rank is compared with the step
    for step in 0..SLOTS {
        let at = (start + step) % SLOTS;
        let resident = ring.slots[at].node;
        if resident == node {
            return Ok(at);
        }
        // an empty slot, or a resident nearer to its home than `node` would be
        if rank(resident, at) <= step {
            return Err(at);
        }
    }
    unreachable()
}
