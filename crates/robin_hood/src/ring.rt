// The slots of a module, in a ring: slot 0 follows slot 1,023. That one of them is empty is no fact of
// the type but each walk's requires, since an insert may fill the last one.
ghost use Rattle.robin_hood.specs.Layout.{Spread};
ghost use Rattle.slots.specs.Slots.{Apart};

use slots::Slot;

#[derive(Drop)]
pub struct Ring {
    pub(crate) slots: [Slot; 1024],
    ghost spread: { Spread slots },
    ghost apart: { Apart slots },
}
