// What an index works out from the width of its kind: m, q and the pairs that it needs.
ghost use Rattle.std.specs.Prelude.{◌≡◌, ℕ, ◌+◌, ◌-◌, ◌*◌, ◌^◌, ◌<◌, ◌≤◌};
ghost use Rattle.key.specs.Widths.{half, log_up, LogUp, most, needed};

use crate::Key;

// m: half the width, rounded up.
pub fn half_width<K: Key>() -> u32
    ensures value { result ≡ half K.Key.width }
    ensures bounds { (4 ≤ result) × (result ≤ 30) }
    ensures rebuilding { 4 * (K.Key.width + 1) ≤ 9 * result }
{
    K::bit_width().div_ceil(2)
}

// log2 of n, rounded up.
fn log_up(n: u32) -> u32
    requires { n ≤ 61 }
    ensures value { result ≡ log_up n }
    ensures least { LogUp n result }
    ensures small { result ≤ 6 }
{
    n.next_power_of_two().ilog2()
}

// q: the most frames of a level search, 1 + log2(width + 1) rounded up.
pub fn search_bound<K: Key>() -> u32
    ensures value { result ≡ most K.Key.width }
    ensures least { LogUp (K.Key.width + 1) (result - 1) }
    ensures bounds { (5 ≤ result) × (result ≤ 7) }
{
    1 + log_up(K::bit_width() + 1)
}

// The pairs that a limit of entries needs in a dictionary: w + 1 for each bucket that may stand.
pub fn pairs_needed<K: Key>(limit: u32) -> u64
    ensures { result ≡ needed K.Key.width limit }
{
    let buckets = (limit / half_width::<K>()).max(1);
    (K::bit_width() as u64 + 1) * buckets as u64
}
