// Rebuildings: a bucket split, and two neighbours merged. Between the steps of a rebuilding the sizes
// of buckets are out of their bounds; the levels, the trees and the order of the entries are not.
ghost use Rattle.std.specs.Prelude.{◌≡◌, ℕ, ◌+◌, ◌*◌, ◌^◌, ◌<◌, ◌≤◌, true, List, ◌∷◌, ◌++◌, length, ◌≢◌};
ghost use Rattle.dictionary.specs.Pairs.{among, raised};
ghost use Rattle.buckets.specs.Tables.{order_of, next_of};
ghost use Rattle.trie.specs.Sound.{Sound as TrieSound};
ghost use Rattle.forest.specs.Forests.{items_of, row_of};
ghost use Rattle.rules.specs.Buckets.{Spread};
ghost use Rattle.rules.specs.Changes.{split_at, join_at};

use dictionary::Dictionary;
use inside::Inside;
use key::Key;
use trie::{close_bucket, open_bucket};

// The bucket keeps the lower half of its entries, and a new one behind it takes the rest. The frames
// made are answered.
pub fn split<K: Key, D: Dictionary>(d: &mut D, inside: &mut Inside, number: u16) -> u16
    requires trie { TrieSound K.Key.width (D.Dictionary.pairs d.old) inside.old.grove.table }
    requires spread { Spread (2 ^ K.Key.width) (row_of inside.old.grove.table inside.old.grove.pool) }
    requires stands { among number (order_of inside.old.grove.table) ≡ true }
    requires two { 2 ≤ length (items_of inside.old.grove.table inside.old.grove.pool number) }
    requires few { length (order_of inside.old.grove.table) < 128 }
    requires room { (K.Key.width + 1) * (length (order_of inside.old.grove.table) + 1) ≤ D.Dictionary.room d.old }
    ensures trie { TrieSound K.Key.width (D.Dictionary.pairs d.new) inside.new.grove.table }
    ensures split { (pre post : List ℕ) → order_of inside.old.grove.table ≡ pre ++ number ∷ post → (row_of inside.new.grove.table inside.new.grove.pool ≡ (split_at K.Key.width (length pre) (row_of inside.old.grove.table inside.old.grove.pool)).after) × (result ≡ (split_at K.Key.width (length pre) (row_of inside.old.grove.table inside.old.grove.pool)).frames) }
    ensures few { result ≤ 2 * (K.Key.width + 1) }
    ensures tally { D.Dictionary.frames d.new ≡ raised (D.Dictionary.frames d.old) result }
    ensures room { D.Dictionary.room d.new ≡ D.Dictionary.room d.old }
    ensures rest { (inside.new.limit ≡ inside.old.limit) × (inside.new.count ≡ inside.old.count) }
{
    let rep = inside.grove.middle_key(number);
    let opened = open_bucket::<K, D>(d, &mut inside.grove.table, number, rep);
    inside.grove.halve(number, opened.number);
    opened.frames
}

// The bucket takes all entries of the one behind it, which is no more. The frames made are answered.
pub fn merge<K: Key, D: Dictionary>(d: &mut D, inside: &mut Inside, number: u16) -> u16
    requires trie { TrieSound K.Key.width (D.Dictionary.pairs d.old) inside.old.grove.table }
    requires spread { Spread (2 ^ K.Key.width) (row_of inside.old.grove.table inside.old.grove.pool) }
    requires stands { among number (order_of inside.old.grove.table) ≡ true }
    requires behind { next_of inside.old.grove.table number ≢ 0 }
    ensures trie { TrieSound K.Key.width (D.Dictionary.pairs d.new) inside.new.grove.table }
    ensures merged { (pre : List ℕ) (other : ℕ) (post : List ℕ) → order_of inside.old.grove.table ≡ pre ++ number ∷ other ∷ post → (order_of inside.new.grove.table ≡ pre ++ number ∷ post) × (row_of inside.new.grove.table inside.new.grove.pool ≡ (join_at K.Key.width (length pre) (row_of inside.old.grove.table inside.old.grove.pool)).after) × (result ≡ (join_at K.Key.width (length pre) (row_of inside.old.grove.table inside.old.grove.pool)).frames) }
    ensures few { result ≤ 2 * (K.Key.width + 1) }
    ensures tally { D.Dictionary.frames d.new ≡ raised (D.Dictionary.frames d.old) result }
    ensures room { D.Dictionary.room d.new ≡ D.Dictionary.room d.old }
    ensures rest { (inside.new.limit ≡ inside.old.limit) × (inside.new.count ≡ inside.old.count) }
{
    let other = inside.grove.table.next(number);
    inside.grove.unite(number, other);
    close_bucket::<K, D>(d, &mut inside.grove.table, other)
}
