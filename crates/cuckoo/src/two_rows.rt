// The slots of a module: row one is slots 0 to 511, row two slots 512 to 1,023, and the overflow row
// the rest.
ghost use Rattle.cuckoo.specs.Layout.{Placed, Packed};
ghost use Rattle.slots.specs.Slots.{Apart};

use slots::Slot;

#[derive(Drop)]
pub struct TwoRows {
    pub(crate) slots: [Slot; 1792],
    // the taken slots of the overflow row
    pub(crate) spilled: u16,
    ghost placed: { Placed slots },
    ghost packed: { Packed slots spilled },
    ghost apart: { Apart slots },
}
