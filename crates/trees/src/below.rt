// The highest entry at or below a key.
//
// The way is the search path of the key itself, and the entry is the last one of that side on it.
// One function over a side, for next and last, would choose again in each arm, and be longer than both.

ghost use Rattle.entry.specs.Lists.{upto};
ghost use Rattle.trees.specs.Trees.{seen};
ghost use Rattle.trees.specs.Pools.{Standing, tree_at, entries_at};
ghost use Rattle.trees.specs.Answers.{Saw, hindmost};

use crate::{Found, NONE, Node};
use std::cmp::Ordering;

pub fn last(nodes: &[Node], root: u16, key: u64) -> Found
    requires { Standing nodes.now root }
    ensures { Saw result (hindmost (upto key (entries_at nodes.now root))) (seen key (tree_at nodes.now root)) (tree_at nodes.now root) }
{
    if root == NONE {
        return Found::default();
    }
    let here = nodes[root as usize];
    match key.cmp(&here.key) {
        Ordering::Less => last(nodes, here.left, key).one_more(),
        Ordering::Equal => here.found(),
        Ordering::Greater => last(nodes, here.right, key).or_here(&here),
    }
}
