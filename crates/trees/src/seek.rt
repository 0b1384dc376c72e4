// The entry of a key, and the search path to it.

ghost use Rattle.entry.specs.Lists.{at};
ghost use Rattle.trees.specs.Trees.{seen};
ghost use Rattle.trees.specs.Pools.{Standing, tree_at, entries_at};
ghost use Rattle.trees.specs.Answers.{Saw, foremost};

use crate::{Found, NONE, Node};
use std::cmp::Ordering;

pub fn find(nodes: &[Node], root: u16, key: u64) -> Found
    requires { Standing nodes.now root }
    ensures { Saw result (foremost (at key (entries_at nodes.now root))) (seen key (tree_at nodes.now root)) (tree_at nodes.now root) }
{
    if root == NONE {
        return Found::default();
    }
    let here = nodes[root as usize];
    match key.cmp(&here.key) {
        Ordering::Less => find(nodes, here.left, key).one_more(),
        Ordering::Equal => here.found(),
        Ordering::Greater => find(nodes, here.right, key).one_more(),
    }
}
