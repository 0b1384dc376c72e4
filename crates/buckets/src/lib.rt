// The bucket table: 128 records, each a bucket or free, and the order of the buckets that stand.
//
// Bucket number 0 is always the first and is never closed, so the buckets that stand are a ring
// through it, linked both ways: there is no sentinel and no case for the last. The free records are
// chained through the same `next`. Each number is in the ring or in that chain, once (`stands`).
// A bucket's number is no type of its own: whether a bucket of that number stands ends with each `close`,
// and numbers come out of the dictionary as plain links. So the calls ask for what they need of it.
// The free records are a chain and no row beside, since a record has the link already.
// The table knows representatives, sizes and the roots of trees as numbers, and asks nothing of them.
#![tactic(auto)]

ghost use Rattle.buckets.specs.Rings.{StandingIn, StandingIn-prop};

pub mod change;
pub mod make;
pub mod onward;
pub mod read;

// The root of a bucket that has no tree: the trees' own number for none, two bytes a record.
pub const NO_TREE: u16 = trees::NONE;

#[derive(Clone, Copy, PartialEq, Eq, Debug)]
pub struct Bucket {
    pub(crate) rep: u64,
    pub(crate) size: u16,
    pub(crate) root: u16,
    pub(crate) prev: u16,
    pub(crate) next: u16,
}

#[derive(Clone, Copy, PartialEq, Eq, Debug)]
pub struct Table {
    pub(crate) records: [Bucket; 128],
    pub(crate) count: u16,
    pub(crate) free: u16,
    ghost stands: { StandingIn records count free } by { StandingIn-prop records count free },
}
