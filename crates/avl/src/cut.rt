// A held key's entry goes, and its node becomes free.
//
// Where the node has two subtrees, the first node of the right one takes its place.

ghost use Rattle.std.specs.Prelude.{◌≡◌, ◌≢◌};
ghost use Rattle.trees.specs.Pools.{tree_at, Standing};
ghost use Rattle.avl.specs.Cuts.{Held, First, Rootless, Shrank};

use crate::turns::level;
use std::cmp::Ordering;
use trees::{NONE, Node};

// The new root, the node that is free now, and the entries on the search path in the tree as it was.
#[derive(Clone, Copy, Debug, Eq, PartialEq)]
pub struct Shrunk {
    pub root: u16,
    pub gone: u16,
    pub visits: u16,
}

// Takes the first node out of a tree that has one: its index, and the new root.
fn take_first(nodes: &mut [Node], root: u16) -> (u16, u16)
    requires tree { Standing nodes.old root }
    requires some { root ≢ 65535 }
    ensures { First nodes.old nodes.new result.0 result.1 (tree_at nodes.old root) (tree_at nodes.new result.1) }
{
    let here = nodes[root as usize];
    if here.left == NONE {
        return (root, here.right);
    }
    let (first, left) = take_first(nodes, here.left);
    let top = level(nodes, root, left, here.right);
    (first, top)
}

// One tree of the two under a root, without it.
fn drop_root(nodes: &mut [Node], root: u16) -> u16
    requires tree { Standing nodes.old root }
    requires some { root ≢ 65535 }
    ensures { Rootless nodes.old nodes.new root result (tree_at nodes.new result) }
{
    let here = nodes[root as usize];
    if here.left == NONE {
        return here.right;
    }
    if here.right == NONE {
        return here.left;
    }
    let (first, right) = take_first(nodes, here.right);
    level(nodes, first, here.left, right)
}

pub fn remove(nodes: &mut [Node], root: u16, key: u64) -> Shrunk
    requires { Held nodes.old root key }
    ensures { Shrank nodes.old nodes.new result key (tree_at nodes.old root) (tree_at nodes.new result.root) }
{
    let here = nodes[root as usize];
    match key.cmp(&here.key) {
        Ordering::Less => {
            let left = remove(nodes, here.left, key);
            let top = level(nodes, root, left.root, here.right);
            Shrunk {
                root: top,
                visits: left.visits + 1,
                ..left
            }
        }
        Ordering::Equal => {
            let top = drop_root(nodes, root);
            Shrunk {
                root: top,
                gone: root,
                visits: 1,
            }
        }
        Ordering::Greater => {
            let right = remove(nodes, here.right, key);
            let top = level(nodes, root, here.left, right.root);
            Shrunk {
                root: top,
                visits: right.visits + 1,
                ..right
            }
        }
    }
}
