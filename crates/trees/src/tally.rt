// How many entries a span of keys has, both ends included.

ghost use Rattle.std.specs.Prelude.{◌≡◌, length};
ghost use Rattle.entry.specs.Lists.{between};
ghost use Rattle.trees.specs.Pools.{Standing, entries_at};

use crate::{NONE, Node};

pub fn count(nodes: &[Node], root: u16, first: u64, second: u64) -> usize
    requires { Standing nodes.now root }
    ensures { result ≡ length (between first second (entries_at nodes.now root)) }
{
    if root == NONE {
        return 0;
    }
    let here = nodes[root as usize];
    if here.key < first {
        return count(nodes, here.right, first, second);
    }
    if second < here.key {
        return count(nodes, here.left, first, second);
    }
    let low = count(nodes, here.left, first, second);
    let high = count(nodes, here.right, first, second);
    low + 1 + high
}
