// Where a node may stand in the two rows. Row one is slots 0 to 511, row two slots 512 to 1,023, and
// the overflow row the rest of the 1,792.
ghost use Rattle.std.specs.Prelude.{◌≡◌, ◌<◌, ◌≤◌};
ghost use Rattle.cuckoo.specs.Homes.{first_of, second_of, home_of, other_of};

pub(crate) const ROW: usize = 512;

pub(crate) const OVERFLOW: usize = 1024;

// The home in row one: the top 9 bits of the product's low 64.
pub(crate) fn first(node: u64) -> usize
    ensures value { result ≡ first_of node }
    ensures below { result < 512 }
{
    (node.wrapping_mul(0x9E37_79B9_7F4A_7C15) >> 55) as usize
}

// The home in row two: the top 9 bits of another product's low 64.
pub(crate) fn second(node: u64) -> usize
    ensures value { result ≡ second_of node }
    ensures above { 512 ≤ result }
    ensures below { result < 1024 }
{
    ROW + (node.wrapping_mul(0xC2B2_AE3D_27D4_EB4F) >> 55) as usize
}

// The home of `node` in the other row than that of `at`.
pub(crate) fn other(at: usize, node: u64) -> usize
    ensures value { result ≡ other_of at node }
    ensures below { result < 1024 }
    ensures home { home_of result node ≡ result }
{
    if at < ROW { second(node) } else { first(node) }
}
