// The workings of an index on what it keeps inside: the entries near a key and those of a span, an
// entry that comes or leaves, and the rebuildings that follow.
//
// These functions ask of their caller that the levels and the buckets tie in; that the trees do is in
// the grove's type. An index keeps its inside to itself and sees to that, so none of its callers meets
// these conditions. Keys are bits that fit, as the calls of an index have looked; no type carries the levels: the dictionary of a shut index was never set up.
#![tactic(auto)]

pub mod enter;
pub mod leave;
pub mod near;
pub mod rebuild;
pub mod spans;
