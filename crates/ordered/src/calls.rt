// The calls of an ordered index, and the one form of their answers.
ghost use Rattle.std.specs.Prelude.{◌≡◌};
ghost use Rattle.ordered.specs.Numbers.{rebuilding_number};
ghost use Rattle.ordered.specs.Answers.{answer_of, no_of};

use crate::refusal::Refusal;
use entry::Entry;

// Keys go by their bits. An add has its note too, a range its first and second key.
#[derive(Clone, Copy, PartialEq, Eq, Debug)]
pub enum Call {
    Add(u64, u64),
    Remove(u64),
    Find(u64),
    Next(u64),
    Last(u64),
    Range(u64, u64),
}

// What a change did to the buckets besides.
#[derive(Clone, Copy, PartialEq, Eq, Debug)]
pub enum Rebuilding {
    Unchanged = 0,
    Split = 1,
    Merge = 2,
    MergeSplit = 3,
}

impl Rebuilding {
    // Its discriminant, with the contract that a cast has not.
    pub fn number(self) -> u8
        ensures { result ≡ rebuilding_number self }
    {
        self as u8
    }
}

// The entry added, removed or found, or why there is none. A range answers key 0 and note 0, and in
// `number` how many entries it wrote, which is 0 for any other call and for a refusal.
#[derive(Clone, Copy, PartialEq, Eq, Debug)]
pub struct Answer {
    pub outcome: Result<Entry, Refusal>,
    pub number: u16,
    pub frames: u16,
    pub visits: u16,
    pub rebuilding: Rebuilding,
}

impl Answer {
    // Of a call that rebuilt nothing: its entry, or why there is none.
    pub fn new(outcome: Result<Entry, Refusal>, frames: u16, visits: u16) -> Answer
        ensures { result ≡ answer_of outcome frames visits }
    {
        Answer {
            outcome,
            number: 0,
            frames,
            visits,
            rebuilding: Rebuilding::Unchanged,
        }
    }

    pub fn refused(refusal: Refusal, frames: u16, visits: u16) -> Answer
        ensures { result ≡ no_of refusal frames visits }
    {
        Answer::new(Err(refusal), frames, visits)
    }
}
