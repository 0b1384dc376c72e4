// A new entry goes to the end of its key's search path, into a node that is free.

ghost use Rattle.trees.specs.Pools.{tree_at};
ghost use Rattle.avl.specs.Grows.{Fresh, Grew};

use crate::turns::level;
use entry::Entry;
use trees::{NONE, Node};

// The new root, and the entries on the search path in the tree as it was.
#[derive(Clone, Copy, Debug, Eq, PartialEq)]
pub struct Grown {
    pub root: u16,
    pub visits: u16,
}

pub fn insert(nodes: &mut [Node], root: u16, fresh: u16, new: Entry) -> Grown
    requires { Fresh nodes.old root fresh new.key }
    ensures { Grew nodes.old nodes.new result fresh new (tree_at nodes.old root) (tree_at nodes.new result.root) }
{
    if root == NONE {
        nodes[fresh as usize] = Node {
            key: new.key,
            note: new.note,
            left: NONE,
            right: NONE,
            height: 1,
        };
        return Grown {
            root: fresh,
            visits: 0,
        };
    }
    let here = nodes[root as usize];
    if new.key < here.key {
        let left = insert(nodes, here.left, fresh, new);
        let top = level(nodes, root, left.root, here.right);
        return Grown {
            root: top,
            visits: left.visits + 1,
        };
    }
    let right = insert(nodes, here.right, fresh, new);
    let top = level(nodes, root, here.left, right.root);
    Grown {
        root: top,
        visits: right.visits + 1,
    }
}
