// An entry leaves its bucket.
ghost use Rattle.std.specs.Prelude.{◌≡◌, ℕ, ◌+◌, ◌*◌, ◌^◌, ◌<◌, ◌≤◌, true, List, ◌∷◌, ◌++◌, length, ◌≢◌};
ghost use Rattle.dictionary.specs.Pairs.{among, raised};
ghost use Rattle.entry.specs.Lists.{at, filled};
ghost use Rattle.buckets.specs.Tables.{rep_of, order_of, next_of};
ghost use Rattle.links.specs.Orders.{holder};
ghost use Rattle.trie.specs.Sound.{Sound as TrieSound};
ghost use Rattle.forest.specs.Forests.{items_of, row_of};
ghost use Rattle.rules.specs.Buckets.{Spread};
ghost use Rattle.inside.specs.Leaving.{mended, Did, Left};
ghost use Rattle.inside.specs.Whole.{Whole};

use crate::rebuild::{merge, split};
use dictionary::Dictionary;
use inside::{Inside, Rebuilt};
use key::Key;
use key::sizes::half_width;
use ordered::Rebuilding;

// Merges a bucket with the one behind it, and splits the two again where they hold more than 4m entries.
fn mend<K: Key, D: Dictionary>(d: &mut D, inside: &mut Inside, left: u16) -> Rebuilt
    requires trie { TrieSound K.Key.width (D.Dictionary.pairs d.old) inside.old.grove.table }
    requires spread { Spread (2 ^ K.Key.width) (row_of inside.old.grove.table inside.old.grove.pool) }
    requires stands { among left (order_of inside.old.grove.table) ≡ true }
    requires behind { next_of inside.old.grove.table left ≢ 0 }
    requires room { (K.Key.width + 1) * length (order_of inside.old.grove.table) ≤ D.Dictionary.room d.old }
    ensures trie { TrieSound K.Key.width (D.Dictionary.pairs d.new) inside.new.grove.table }
    ensures mended { (pre : List ℕ) (other : ℕ) (post : List ℕ) → order_of inside.old.grove.table ≡ pre ++ left ∷ other ∷ post → Did result (row_of inside.new.grove.table inside.new.grove.pool) (mended K.Key.width (length pre) (row_of inside.old.grove.table inside.old.grove.pool)) }
    ensures tally { D.Dictionary.frames d.new ≡ raised (D.Dictionary.frames d.old) result.frames }
    ensures room { D.Dictionary.room d.new ≡ D.Dictionary.room d.old }
    ensures rest { (inside.new.limit ≡ inside.old.limit) × (inside.new.count ≡ inside.old.count) }
{
    let other = inside.grove.table.next(left);
    let both = inside.grove.table.size(left) as u32 + inside.grove.table.size(other) as u32;
    let most = 4 * half_width::<K>();
    let frames = merge::<K, D>(d, inside, left);
    if both <= most {
        return Rebuilt {
            frames,
            rebuilding: Rebuilding::Merge,
        };
    }
    let more = split::<K, D>(d, inside, left);
    Rebuilt {
        frames: frames + more,
        rebuilding: Rebuilding::MergeSplit,
    }
}

// Takes a key's entry out of its bucket, and mends the bucket with a neighbour where it then holds fewer
// than m entries: with the one before it, or the first bucket with the one behind.
pub fn leave<K: Key, D: Dictionary>(
    d: &mut D,
    inside: &mut Inside,
    number: u16,
    key: u64,
) -> Rebuilt
    requires whole { Whole K.Key.width (D.Dictionary.pairs d.old) (D.Dictionary.room d.old) (D.Dictionary.frames d.old) inside.old }
    requires fits { key < 2 ^ K.Key.width }
    requires place { number ≡ holder (rep_of inside.old.grove.table) (order_of inside.old.grove.table) key }
    requires held { among number (order_of inside.old.grove.table) ≡ true }
    requires some { filled (at key (items_of inside.old.grove.table inside.old.grove.pool number)) ≡ true }
    ensures trie { TrieSound K.Key.width (D.Dictionary.pairs d.new) inside.new.grove.table }
    ensures left { Left K.Key.width inside.old key result (row_of inside.new.grove.table inside.new.grove.pool) }
    ensures tally { D.Dictionary.frames d.new ≡ raised (D.Dictionary.frames d.old) result.frames }
    ensures room { D.Dictionary.room d.new ≡ D.Dictionary.room d.old }
    ensures rest { (inside.new.limit ≡ inside.old.limit) × (inside.new.count + 1 ≡ inside.old.count) }
{
    inside.grove.shrink(number, key);
    inside.count -= 1;
    if inside.grove.table.size(number) as u32 >= half_width::<K>()
        || inside.grove.table.count() < 2
    {
        return Rebuilt::UNCHANGED;
    }
    let left = if number == 0 {
        0
    } else {
        inside.grove.table.prev(number)
    };
    mend::<K, D>(d, inside, left)
}
