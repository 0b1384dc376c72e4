// What an index keeps beside its dictionary: definitions and lemmas only, of it and of what a call
// makes of it. The fields are public for the crates that work on it; an index keeps its own private.
#![tactic(auto)]

use forest::Grove;
use ordered::Rebuilding;

// The buckets with their trees, how many entries may stand and how many do. A shut index has none of
// these: it has no entry and lets its dictionary be.
#[derive(Drop)]
pub struct Inside {
    pub grove: Grove,
    pub limit: u16,
    pub count: u16,
}

// What a change did to the buckets besides, and the frames that it took.
#[derive(Clone, Copy, PartialEq, Eq, Debug)]
pub struct Rebuilt {
    pub frames: u16,
    pub rebuilding: Rebuilding,
}

impl Rebuilt {
    // The buckets are as they were.
    pub const UNCHANGED: Rebuilt = Rebuilt {
        frames: 0,
        rebuilding: Rebuilding::Unchanged,
    };
}
