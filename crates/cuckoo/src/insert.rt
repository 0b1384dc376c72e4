// A put of a new node. It relies on Placed, Apart and Packed, and on there being at most 767 pairs,
// so that the overflow row has a slot left.
ghost use Rattle.std.specs.Prelude.{◌≡◌, ◌+◌, ◌<◌};
ghost use Rattle.dictionary.specs.Pairs.{with_pair};
ghost use Rattle.cuckoo.specs.Homes.{first_of};
ghost use Rattle.cuckoo.specs.Layout.{Settles};
ghost use Rattle.slots.specs.Slots.{links_of, pairs_of, held, Absent};

use crate::homes::{OVERFLOW, first, other};
use crate::two_rows::TwoRows;
use slots::Slot;

// How many residents a put pushes before it gives up.
const PUSHES: usize = 32;

// Puts in a new pair. It takes its home in row one and pushes the resident to its other home, and so
// on; the pair pushed last goes to the overflow row.
pub(crate) fn insert(rows: &mut TwoRows, new: Slot)
    requires some { 0 < new.node }
    requires absent { Absent rows.old.slots new.node }
    requires room { held rows.old.slots < 768 }
    ensures settles { Settles 32 rows.old.slots rows.old.spilled (first_of new.node) new rows.new.slots rows.new.spilled }
    ensures held { held rows.new.slots ≡ held rows.old.slots + 1 }
    ensures pairs { pairs_of rows.new.slots ≡ with_pair (pairs_of rows.old.slots) new.node (links_of new) }
{
    let mut carried = new;
    let mut at = first(new.node);
    for _push in 0..PUSHES {
        let resident = rows.slots[at];
        rows.slots[at] = carried;
        if resident.node == 0 {
            return;
        }
        carried = resident;
        at = other(at, carried.node);
    }
    rows.slots[OVERFLOW + rows.spilled as usize] = carried;
    rows.spilled += 1;
}
