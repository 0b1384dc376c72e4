// The indices of a tree's nodes, from left to right.

ghost use Rattle.std.specs.Prelude.{◌≡◌, ◌+◌, ◌≤◌, length};
ghost use Rattle.trees.specs.Pools.{Standing, places_at};
ghost use Rattle.trees.specs.Answers.{laid};

use crate::{NONE, Node};

// Over a vector of any fixed capacity the check did not prove the recursion, and one of 512 would ask
// more of callers, so the row and its end stay two.
//
// Writes the indices into the places from start on, and answers the place after them.
pub fn walk(nodes: &[Node], root: u16, row: &mut [u16], start: usize) -> usize
    requires tree { Standing nodes.now root }
    requires room { start + length (places_at nodes.now root) ≤ length row.old }
    ensures places { row.new ≡ laid row.old start (places_at nodes.now root) }
    ensures end { result ≡ start + length (places_at nodes.now root) }
{
    if root == NONE {
        return start;
    }
    let here = nodes[root as usize];
    let middle = walk(nodes, here.left, row, start);
    row[middle] = root;
    walk(nodes, here.right, row, middle + 1)
}
