// The entries next to a key, above it and below.
//
// Such an entry is in the key's own bucket or, where that has none, at the near end of the bucket
// beside it: only the first bucket may be empty. One function over a side, for both, would choose the
// neighbour, the end of its tree and the test for the last bucket.
ghost use Rattle.std.specs.Prelude.{◌≡◌, ℕ, true, List, ◌∷◌, ◌++◌};
ghost use Rattle.dictionary.specs.Pairs.{among};
ghost use Rattle.buckets.specs.Tables.{order_of};
ghost use Rattle.inside.specs.Near.{Above, Below};

use forest::Grove;
use trees::Found;

// The lowest entry at or above a key, from its bucket on.
pub fn next_from(grove: &Grove, number: u16, key: u64) -> Found
    requires { among number (order_of grove.now.table) ≡ true }
    ensures { (pre post : List ℕ) → order_of grove.now.table ≡ pre ++ number ∷ post → Above result grove.now.table grove.now.pool number key post }
{
    let root = grove.table.root(number);
    let here = trees::next(&grove.pool.nodes, root, key);
    let behind = grove.table.next(number);
    if here.entry.is_some() || behind == 0 {
        return here;
    }
    let other = grove.table.root(behind);
    let there = trees::first_entry(&grove.pool.nodes, other);
    Found {
        visits: here.visits + there.visits,
        ..there
    }
}

// The highest entry at or below a key, from its bucket back.
pub fn last_from(grove: &Grove, number: u16, key: u64) -> Found
    requires { among number (order_of grove.now.table) ≡ true }
    ensures { (pre post : List ℕ) → order_of grove.now.table ≡ pre ++ number ∷ post → Below result grove.now.table grove.now.pool number key pre }
{
    let root = grove.table.root(number);
    let here = trees::last(&grove.pool.nodes, root, key);
    if here.entry.is_some() || number == 0 {
        return here;
    }
    let before = grove.table.prev(number);
    let other = grove.table.root(before);
    let there = trees::last_entry(&grove.pool.nodes, other);
    Found {
        visits: here.visits + there.visits,
        ..there
    }
}
