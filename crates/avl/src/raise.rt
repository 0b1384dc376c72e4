// A tree of given nodes, as low as a tree of so many can be.
//
// The nodes are named by their indices in key order, so no entry is copied. The middle one becomes the
// root, and what lies before and behind it its subtrees. The height that a subtree will have follows from
// the number of its nodes, and falls from call to call.

ghost use Rattle.std.specs.Prelude.{◌≡◌, length};
ghost use Rattle.trees.specs.Trees.{tall};
ghost use Rattle.trees.specs.Pools.{tree_at};
ghost use Rattle.avl.specs.Builds.{Lowest, Order, Built};

use crate::turns::hang;
use trees::{NONE, Node};

// The height of the lowest tree of so many nodes.
fn height_for(count: usize) -> u8
    ensures { Lowest count result }
{
    if count == 0 {
        0
    } else {
        1 + count.ilog2() as u8
    }
}

fn raise(nodes: &mut [Node], order: &[u16], height: u8) -> u16
    requires order { Order nodes.old order.now }
    requires height { Lowest (length order.now) height }
    ensures built { Built nodes.old nodes.new order.now result (tree_at nodes.new result) }
    ensures height { tall (tree_at nodes.new result) ≡ height }
{
    let (front, back) = order.split_at(order.len() / 2);
    let Some((&middle, rest)) = back.split_first() else {
        return NONE;
    };
    let left = raise(nodes, front, height_for(front.len()));
    let right = raise(nodes, rest, height_for(rest.len()));
    hang(nodes, middle, left, right);
    middle
}

// Makes one tree of the nodes that order names, and answers its root.
pub fn build(nodes: &mut [Node], order: &[u16]) -> u16
    requires { Order nodes.old order.now }
    ensures { Built nodes.old nodes.new order.now result (tree_at nodes.new result) }
{
    raise(nodes, order, height_for(order.len()))
}
