// The pool of nodes, and which of them no tree uses.
//
// The free indices lie in a row. Handing a node out and taking one back move the end of that row, and touch
// no node. Nodes are named by their indices: no node is ever allocated.

pub mod hands;

ghost use Rattle.std.specs.Prelude.{◌≡◌, length};

use arrayvec::ArrayVec;
use trees::Node;

#[derive(Drop)]
pub struct Pool {
    pub nodes: [Node; 512],
    spare: ArrayVec<u16, 512>,
    ghost whole: { length nodes ≡ 512 },
}
