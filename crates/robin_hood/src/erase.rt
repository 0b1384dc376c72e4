// The walk of a drop, which leaves no gap before a pair that stands away from its home. It relies on
// Spread and Apart, and on an empty slot to end at.
ghost use Rattle.std.specs.Prelude.{◌≡◌, ◌+◌, ◌<◌, None as Nothing};
ghost use Rattle.dictionary.specs.Pairs.{with_pair};
ghost use Rattle.robin_hood.specs.Layout.{Closes};
ghost use Rattle.slots.specs.Slots.{node_at, pairs_of, held};

use crate::home::{AT_HOME, SLOTS, rank};
use crate::ring::Ring;
use slots::EMPTY;

// Takes the pair in the slot `from` away, and moves the followers back by one, up to an empty slot
// or one of displacement 0.
pub(crate) fn erase(ring: &mut Ring, from: usize)
    requires within { from < 1024 }
    requires some { 0 < node_at ring.old.slots from }
    requires room { held ring.old.slots < 1024 }
    ensures closes { Closes ring.old.slots from ring.new.slots }
    ensures held { held ring.new.slots + 1 ≡ held ring.old.slots }
    ensures pairs { pairs_of ring.new.slots ≡ with_pair (pairs_of ring.old.slots) (node_at ring.old.slots from) Nothing }
{
    // the ring is not spread again before the walk ends, so the walk is on its slots
    let slots = &mut ring.slots;
    slots[from] = EMPTY;
    // by steps, as Closes counts: each turn reads a slot and writes the one before
    for step in 0..SLOTS - 1 {
        let next = (from + step + 1) % SLOTS;
        let follower = slots[next];
        if rank(follower.node, next) <= AT_HOME {
            return;
        }
        // emptied first, so that no node stands twice
        slots[next] = EMPTY;
        slots[(from + step) % SLOTS] = follower;
    }
    unreachable()
}
