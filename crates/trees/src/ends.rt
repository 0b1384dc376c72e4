// The first and the last entry of a tree, with the entries on the way to them.
//
// One function over a side would choose the child by it, and be longer than both.

ghost use Rattle.trees.specs.Trees.{low_way, high_way};
ghost use Rattle.trees.specs.Pools.{Standing, tree_at, entries_at};
ghost use Rattle.trees.specs.Answers.{Saw, foremost, hindmost};

use crate::{Found, NONE, Node};

pub fn first_entry(nodes: &[Node], root: u16) -> Found
    requires { Standing nodes.now root }
    ensures { Saw result (foremost (entries_at nodes.now root)) (low_way (tree_at nodes.now root)) (tree_at nodes.now root) }
{
    if root == NONE {
        return Found::default();
    }
    let here = nodes[root as usize];
    first_entry(nodes, here.left).or_here(&here)
}

pub fn last_entry(nodes: &[Node], root: u16) -> Found
    requires { Standing nodes.now root }
    ensures { Saw result (hindmost (entries_at nodes.now root)) (high_way (tree_at nodes.now root)) (tree_at nodes.now root) }
{
    if root == NONE {
        return Found::default();
    }
    let here = nodes[root as usize];
    last_entry(nodes, here.right).or_here(&here)
}
