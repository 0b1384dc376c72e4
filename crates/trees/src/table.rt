// The fewest entries of a balanced tree of each height, and the height that so many entries allow.

ghost use Rattle.std.specs.Prelude.{◌≡◌, ℕ, ◌+◌, ◌<◌, ◌≤◌, length};
ghost use Rattle.trees.specs.Trees.{Tree, Balanced, entries, tall, seen};
ghost use Rattle.trees.specs.Heights.{fewest, highest};

// For the heights 1 to 10. Each number is 1 more than the sum of the two before it.
pub const FEWEST: [u16; 10] = [1, 2, 4, 7, 12, 20, 33, 54, 88, 143];

pub fn fewest_at(height: u8) -> u16
    requires { (1 ≤ height) × (height ≤ 10) }
    ensures { result ≡ fewest height }
{
    FEWEST[(height - 1) as usize]
}

// The largest height that so many entries allow.
pub fn tallest(size: u16) -> u8
    requires { size < 232 }
    ensures height { result ≡ highest size }
    ensures allowed { fewest result ≤ size }
    ensures largest { (h : ℕ) → fewest h ≤ size → h ≤ result }
    ensures trees { (t : Tree) → Balanced t → length (entries t) ≤ size → tall t ≤ result }
    ensures paths { (t : Tree) (key : ℕ) → Balanced t → length (entries t) ≤ size → seen key t ≤ result }
{
    FEWEST.iter().filter(|least| **least <= size).count() as u8
}
