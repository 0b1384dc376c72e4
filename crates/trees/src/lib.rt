// Balanced trees over indexed nodes, and what can be read from them.
//
// All nodes lie in one pool. A tree is the index of its root, NONE for no tree, and a node names its
// children by their indices. At each place the heights of the two subtrees differ by at most 1, a node
// stores the height of its subtree, keys rise from left to right, and no index stands twice.
// Every call here walks down recursively, and the stored height falls with each step. The nodes and the
// root stay two arguments: in one struct, it would have to be made anew at each step and by each caller,
// who holds one pool and a root for each bucket.
#![tactic(auto)]

mod above;
mod below;
mod ends;
mod seek;
mod spans;
mod table;
mod tally;
mod walks;

ghost use Rattle.std.specs.Prelude.{◌≡◌, ◌+◌, ◌<◌};
ghost use Rattle.std.specs.Option.{option_or};
ghost use Rattle.trees.specs.Pools.{entry_in};

pub use above::next;
pub use below::last;
pub use ends::{first_entry, last_entry};
use entry::Entry;
pub use seek::find;
pub use spans::span;
pub use table::{FEWEST, fewest_at, tallest};
pub use tally::count;
pub use walks::walk;

// No tree. As Option<u16> each index would take 4 bytes in place of 2, so a node 32 in place of 24, and the
// fixed pool of 512 nodes 16384 in place of 12288.
pub const NONE: u16 = 0xFFFF;

#[derive(Clone, Copy, Debug, Eq, PartialEq)]
pub struct Node {
    pub key: u64,
    pub note: u64,
    pub left: u16,
    pub right: u16,
    pub height: u8,
}

impl Node {
    pub fn entry(&self) -> Entry
        ensures { result ≡ entry_in self.now }
    {
        Entry {
            key: self.key,
            note: self.note,
        }
    }

    // The look ends here.
    pub(crate) fn found(&self) -> Found
        ensures { result ≡ record { entry = Some (entry_in self.now); visits = 1 } }
    {
        Found {
            entry: Some(self.entry()),
            visits: 1,
        }
    }
}

// What a look for an entry gives: the entry, if there is one, and how many entries stand on the way.
#[derive(Clone, Copy, Debug, Default, Eq, PartialEq)]
pub struct Found {
    pub entry: Option<Entry>,
    pub visits: u16,
}

impl Found {
    // One entry more on the way.
    pub(crate) fn one_more(self) -> Found
        requires { self.visits < 512 }
        ensures { result ≡ record { entry = self.entry; visits = self.visits + 1 } }
    {
        Found {
            visits: self.visits + 1,
            ..self
        }
    }

    // One entry more on the way, which is the answer where none was found behind it.
    pub(crate) fn or_here(self, here: &Node) -> Found
        requires { self.visits < 512 }
        ensures { result ≡ record { entry = option_or self.entry (Some (entry_in here.now)); visits = self.visits + 1 } }
    {
        Found {
            entry: self.entry.or(Some(here.entry())),
            ..self.one_more()
        }
    }
}

#[cfg(test)]
mod tests;
