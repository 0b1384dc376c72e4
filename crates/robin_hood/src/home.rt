// Where a node belongs on the ring, and how far from there a slot lies.
ghost use Rattle.std.specs.Prelude.{◌≡◌, ◌<◌};
ghost use Rattle.robin_hood.specs.Homes.{home_of, away_of, rank_of};

pub(crate) const SLOTS: usize = 1024;

// The rank of a node that stands at its home.
pub(crate) const AT_HOME: usize = 1;

// The top 10 bits of the product's low 64.
pub(crate) fn home(node: u64) -> usize
    ensures value { result ≡ home_of node }
    ensures below { result < 1024 }
{
    (node.wrapping_mul(0x9E37_79B9_7F4A_7C15) >> 54) as usize
}

// How far `at` lies after the home of `node`.
pub(crate) fn displacement(node: u64, at: usize) -> usize
    requires { at < 1024 }
    ensures { result ≡ away_of at node }
{
    (at + SLOTS - home(node)) % SLOTS
}

// 0 for an empty slot, otherwise one more than the displacement: one number to compare by.
pub(crate) fn rank(node: u64, at: usize) -> usize
    requires { at < 1024 }
    ensures { result ≡ rank_of at node }
{
    if node == 0 {
        0
    } else {
        displacement(node, at) + 1
    }
}
