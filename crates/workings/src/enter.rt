// An entry comes into its bucket.
ghost use Rattle.std.specs.Prelude.{◌≡◌, ◌+◌, ◌*◌, ◌^◌, ◌<◌, ◌≤◌, true, []};
ghost use Rattle.dictionary.specs.Pairs.{among, raised};
ghost use Rattle.entry.specs.Lists.{at};
ghost use Rattle.buckets.specs.Tables.{rep_of, order_of};
ghost use Rattle.links.specs.Orders.{holder};
ghost use Rattle.trie.specs.Sound.{Sound as TrieSound};
ghost use Rattle.forest.specs.Forests.{items_of, row_of};
ghost use Rattle.inside.specs.Changing.{Entered};
ghost use Rattle.inside.specs.Whole.{Whole};

use crate::rebuild::split;
use dictionary::Dictionary;
use entry::Entry;
use inside::{Inside, Rebuilt};
use key::Key;
use key::sizes::half_width;
use ordered::Rebuilding;

// Puts a new entry into its bucket, and splits the bucket where it then holds more than 5m entries.
pub fn enter<K: Key, D: Dictionary>(
    d: &mut D,
    inside: &mut Inside,
    number: u16,
    new: Entry,
) -> Rebuilt
    requires whole { Whole K.Key.width (D.Dictionary.pairs d.old) (D.Dictionary.room d.old) (D.Dictionary.frames d.old) inside.old }
    requires fits { new.key < 2 ^ K.Key.width }
    requires place { number ≡ holder (rep_of inside.old.grove.table) (order_of inside.old.grove.table) new.key }
    requires held { among number (order_of inside.old.grove.table) ≡ true }
    requires new { at new.key (items_of inside.old.grove.table inside.old.grove.pool number) ≡ [] }
    requires free { inside.old.count < inside.old.limit }
    ensures trie { TrieSound K.Key.width (D.Dictionary.pairs d.new) inside.new.grove.table }
    ensures entered { Entered K.Key.width inside.old new result (row_of inside.new.grove.table inside.new.grove.pool) }
    ensures few { result.frames ≤ 2 * (K.Key.width + 1) }
    ensures tally { D.Dictionary.frames d.new ≡ raised (D.Dictionary.frames d.old) result.frames }
    ensures room { D.Dictionary.room d.new ≡ D.Dictionary.room d.old }
    ensures rest { (inside.new.limit ≡ inside.old.limit) × (inside.new.count ≡ inside.old.count + 1) }
{
    inside.grove.grow(number, new);
    inside.count += 1;
    if inside.grove.table.size(number) as u32 <= 5 * half_width::<K>() {
        return Rebuilt::UNCHANGED;
    }
    let frames = split::<K, D>(d, inside, number);
    Rebuilt {
        frames,
        rebuilding: Rebuilding::Split,
    }
}
