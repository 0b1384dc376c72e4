// Where a node stands. It relies on Placed: in the two rows a node stands at its home or not at all;
// and on Packed: past the taken slots of the overflow row all are empty.
ghost use Rattle.std.specs.Prelude.{◌≡◌, ℕ, ◌<◌, ◌≢◌, length, MatchOption};
ghost use Rattle.slots.specs.Slots.{node_at, Absent};

use crate::homes::{OVERFLOW, first, second};
use crate::two_rows::TwoRows;
use slots::Slot;

// The slot that holds `node`, if one does.
pub(crate) fn find(rows: &TwoRows, node: u64) -> Option<usize>
    requires some { 0 < node }
    ensures { MatchOption result (Absent rows.now.slots node) (λ at. (at < 1792) × (node_at rows.now.slots at ≡ node)) }
{
    let one = first(node);
    if rows.slots[one].node == node {
        return Some(one);
    }
    let two = second(node);
    if rows.slots[two].node == node {
        return Some(two);
    }
    let end = OVERFLOW + rows.spilled as usize;
    let place = place_in(&rows.slots[OVERFLOW..end], node)?;
    Some(OVERFLOW + place)
}

// The first place in the row `taken` at which `node` stands.
fn place_in(taken: &[Slot], node: u64) -> Option<usize>
    ensures { MatchOption result ((i : ℕ) → i < length taken.now → node_at taken.now i ≢ node) (λ at. (at < length taken.now) × (node_at taken.now at ≡ node)) }
{
    taken.iter().position(|slot| slot.node == node)
}
