// The lowest entry at or above a key.
//
// The way is the search path of the key itself, and the entry is the last one of that side on it.

ghost use Rattle.entry.specs.Lists.{from};
ghost use Rattle.trees.specs.Trees.{seen};
ghost use Rattle.trees.specs.Pools.{Standing, tree_at, entries_at};
ghost use Rattle.trees.specs.Answers.{Saw, foremost};

use crate::{Found, NONE, Node};
use std::cmp::Ordering;

pub fn next(nodes: &[Node], root: u16, key: u64) -> Found
    requires { Standing nodes.now root }
    ensures { Saw result (foremost (from key (entries_at nodes.now root))) (seen key (tree_at nodes.now root)) (tree_at nodes.now root) }
{
    if root == NONE {
        return Found::default();
    }
    let here = nodes[root as usize];
    match key.cmp(&here.key) {
        Ordering::Less => next(nodes, here.left, key).or_here(&here),
        Ordering::Equal => here.found(),
        Ordering::Greater => next(nodes, here.right, key).one_more(),
    }
}
