// One node above two balanced trees: hung there, or turned so that the whole is balanced.
//
// No node is ever half written: hang gives a node both children and the height that follows from them.
// The node and its two trees are handed on as they are: a struct of them would be made and taken apart in
// each call. Each of the four turns is one crown: three nodes and four trees in the order a x b m c y d, with m on top.

ghost use Rattle.std.specs.Prelude.{◌≡◌, ◌+◌, ◌<◌, ◌≤◌, length, ◌≢◌};
ghost use Rattle.trees.specs.Trees.{tall};
ghost use Rattle.trees.specs.Pools.{high, entry_at, tree_at};
ghost use Rattle.avl.specs.Turns.{Ready, hung, Four, Crowned, Loose, Level};

use trees::{NONE, Node};

// The height of the tree under an index.
fn height_of(nodes: &[Node], i: u16) -> u8
    requires { (i ≢ 65535) → i < length nodes.now }
    ensures { result ≡ high nodes.now i }
{
    if i == NONE {
        0
    } else {
        nodes[i as usize].height
    }
}

// Gives the node i these children, and the height that follows.
pub(crate) fn hang(nodes: &mut [Node], i: u16, left: u16, right: u16)
    requires inside { i < length nodes.old }
    requires left { Ready nodes.old left }
    requires right { Ready nodes.old right }
    ensures { nodes.new ≡ hung nodes.old i left right }
{
    let low = height_of(nodes, left);
    let high = height_of(nodes, right);
    nodes[i as usize] = Node {
        left,
        right,
        height: 1 + low.max(high),
        ..nodes[i as usize]
    };
}

// Three nodes x, m and y, and four trees a, b, c and d: m above x and y, and these above the trees.
fn crown(nodes: &mut [Node], spots: (u16, u16, u16), under: (u16, u16, u16, u16))
    requires { Four nodes.old spots.0 spots.1 spots.2 under.0 under.1 under.2 under.3 }
    ensures { Crowned nodes.old nodes.new spots.0 spots.1 spots.2 under.0 under.1 under.2 under.3 }
{
    let (x, m, y) = spots;
    let (a, b, c, d) = under;
    hang(nodes, x, a, b);
    hang(nodes, y, c, d);
    hang(nodes, m, x, y);
}

// The node i above two trees, the right one two higher.
fn lean_left(nodes: &mut [Node], i: u16, left: u16, right: u16) -> u16
    requires loose { Loose nodes.old i left right }
    requires two { tall (tree_at nodes.old right) ≡ 2 + tall (tree_at nodes.old left) }
    ensures { Level nodes.old nodes.new i (entry_at nodes.old i) (tree_at nodes.old left) (tree_at nodes.old right) result (tree_at nodes.new result) }
{
    let high = nodes[right as usize];
    if height_of(nodes, high.left) <= height_of(nodes, high.right) {
        let outer = nodes[high.right as usize];
        crown(
            nodes,
            (i, right, high.right),
            (left, high.left, outer.left, outer.right),
        );
        right
    } else {
        let inner = nodes[high.left as usize];
        crown(
            nodes,
            (i, high.left, right),
            (left, inner.left, inner.right, high.right),
        );
        high.left
    }
}

// The node i above two trees, the left one two higher.
// One function over a side, for both, would choose at each child and at the order of the crown's seven.
fn lean_right(nodes: &mut [Node], i: u16, left: u16, right: u16) -> u16
    requires loose { Loose nodes.old i left right }
    requires two { tall (tree_at nodes.old left) ≡ 2 + tall (tree_at nodes.old right) }
    ensures { Level nodes.old nodes.new i (entry_at nodes.old i) (tree_at nodes.old left) (tree_at nodes.old right) result (tree_at nodes.new result) }
{
    let high = nodes[left as usize];
    if height_of(nodes, high.right) <= height_of(nodes, high.left) {
        let outer = nodes[high.left as usize];
        crown(
            nodes,
            (high.left, left, i),
            (outer.left, outer.right, high.right, right),
        );
        left
    } else {
        let inner = nodes[high.right as usize];
        crown(
            nodes,
            (left, high.right, i),
            (high.left, inner.left, inner.right, right),
        );
        high.right
    }
}

// The node i above two trees whose heights differ by two at most.
pub(crate) fn level(nodes: &mut [Node], i: u16, left: u16, right: u16) -> u16
    requires loose { Loose nodes.old i left right }
    requires low { tall (tree_at nodes.old left) ≤ 2 + tall (tree_at nodes.old right) }
    requires high { tall (tree_at nodes.old right) ≤ 2 + tall (tree_at nodes.old left) }
    ensures { Level nodes.old nodes.new i (entry_at nodes.old i) (tree_at nodes.old left) (tree_at nodes.old right) result (tree_at nodes.new result) }
{
    let low = height_of(nodes, left);
    let high = height_of(nodes, right);
    if low > high + 1 {
        return lean_right(nodes, i, left, right);
    }
    if high > low + 1 {
        return lean_left(nodes, i, left, right);
    }
    hang(nodes, i, left, right);
    i
}
