// Nodes handed out of the pool and taken back.

ghost use Rattle.std.specs.Prelude.{◌≡◌, ℕ, List, [], ◌∷◌, ◌++◌};
ghost use Rattle.avl.specs.Spares.{free, Shared, Took};

use crate::pool::Pool;
use arrayvec::ArrayVec;
use std::array;
use trees::{NONE, Node};

impl Pool {
    // A pool in which every node is free.
    pub fn new() -> Pool
        ensures { Shared [] (free result) }
    {
        let blank = Node {
            key: 0,
            note: 0,
            left: NONE,
            right: NONE,
            height: 0,
        };
        Pool {
            nodes: [blank; 512],
            spare: ArrayVec::from(array::from_fn(|i| i as u16)),
        }
    }

    // A free node, if there is one.
    pub fn take(&mut self) -> Option<u16>
        ensures took { Took self.old self.new result }
        ensures nodes { self.new.nodes ≡ self.old.nodes }
    {
        self.spare.pop()
    }

    // Takes back a node that was handed out.
    pub fn give(&mut self, node: u16)
        requires { (used : List ℕ) × Shared (node ∷ used) (free self.old) }
        ensures free { free self.new ≡ free self.old ++ node ∷ [] }
        ensures shared { (used : List ℕ) → Shared (node ∷ used) (free self.old) → Shared used (free self.new) }
        ensures nodes { self.new.nodes ≡ self.old.nodes }
    {
        self.spare.push(node);
    }
}
