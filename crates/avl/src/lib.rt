// Balanced trees in a pool of nodes, altered in place.
//
// A call that alters a tree takes the index of its root and answers that of the new one. It writes to the
// nodes of that tree alone, so every other tree of the pool stands as it was. Heights are mended on the
// way back up: one node gets two subtrees whose heights differ by 2 at most, and is turned if need be.
#![tactic(auto)]

mod cut;
mod grow;
pub mod pool;
mod raise;
mod turns;

pub use cut::{Shrunk, remove};
pub use grow::{Grown, insert};
pub use pool::Pool;
pub use raise::build;

#[cfg(test)]
mod tests;
