// What the makes share: slots, of which each holds one pair or is empty, the tally, and the module as
// a dictionary, over any layout of its slots. What a row of slots means, and what a written slot
// changes in it, is proved here for rows of any length.
#![tactic(auto)]

ghost use Rattle.std.specs.Prelude.{◌≡◌};
ghost use Rattle.dictionary.specs.Pairs.{raised};

pub mod layout;
pub mod module;

// A node with its two links. Node 0 marks an empty slot: the format of the modules has no room for
// more, as an Option would need.
#[derive(Clone, Copy, Debug, PartialEq, Eq)]
pub struct Slot {
    pub node: u64,
    pub low: u16,
    pub high: u16,
}

pub const EMPTY: Slot = Slot {
    node: 0,
    low: 0,
    high: 0,
};

// One frame more on the bus. At its top the tally stays.
pub fn raise(tally: &mut u64)
    ensures { tally.new ≡ raised tally.old 1 }
{
    *tally = tally.saturating_add(1);
}
