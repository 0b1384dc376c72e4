// A drop. It relies on Placed, Apart and Packed.
ghost use Rattle.std.specs.Prelude.{◌≡◌, ◌+◌, ◌<◌, None as Nothing};
ghost use Rattle.dictionary.specs.Pairs.{with_pair};
ghost use Rattle.cuckoo.specs.Layout.{Erased};
ghost use Rattle.slots.specs.Slots.{node_at, pairs_of, held};

use crate::homes::OVERFLOW;
use crate::two_rows::TwoRows;
use slots::EMPTY;

// Takes the pair in the slot `at` away. In the overflow row the last pair fills the hole, so that the
// row stays packed.
pub(crate) fn erase(rows: &mut TwoRows, at: usize)
    requires within { at < 1792 }
    requires some { 0 < node_at rows.old.slots at }
    ensures erased { Erased rows.old.slots rows.old.spilled at rows.new.slots rows.new.spilled }
    ensures held { held rows.new.slots + 1 ≡ held rows.old.slots }
    ensures pairs { pairs_of rows.new.slots ≡ with_pair (pairs_of rows.old.slots) (node_at rows.old.slots at) Nothing }
{
    if at < OVERFLOW {
        rows.slots[at] = EMPTY;
        return;
    }
    let last = OVERFLOW + rows.spilled as usize - 1;
    rows.slots[at] = rows.slots[last];
    rows.slots[last] = EMPTY;
    rows.spilled -= 1;
}
