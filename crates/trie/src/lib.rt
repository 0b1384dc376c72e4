// An index's dictionary and bucket table together: the levels of a trie over the representatives of
// the buckets.
//
// `Sound` ties the two: for every node the dictionary has the pair that the table's order asks for,
// and no other. Making gives it, and every call here keeps it. Sizes and roots of the buckets are
// the caller's.
//
// The two stay two values: an index keeps the table beside its trees, and the dictionary of a shut index
// was never set up, so no type could carry `Sound` for all of them.
#![tactic(auto)]

ghost use Rattle.std.specs.Prelude.{◌≡◌, ◌+◌, ◌*◌, ◌^◌, ◌<◌, ◌≤◌, true, false, length};
ghost use Rattle.key.specs.Widths.{most};
ghost use Rattle.dictionary.specs.Pairs.{no_pairs, among, raised};
ghost use Rattle.levels.specs.Counts.{searching, turning};
ghost use Rattle.links.specs.Orders.{with_at, put_after, without, holder};
ghost use Rattle.links.specs.Links.{chosen, node_count};
ghost use Rattle.buckets.specs.Tables.{rep_of, size_of, root_of, prev_of, order_of, no_tree, Shows, Fresh};
ghost use Rattle.trie.specs.Sound.{Sound, reps_of};
ghost use Rattle.trie.specs.Examples.{Examples};

use buckets::Table;
use dictionary::Dictionary;
use key::Key;
use levels::{Found, search};
use turns::set_up::set_up;
use turns::take_away::take_away;

// A bucket's number, and the frames that came with it.
#[derive(Clone, Copy, PartialEq, Eq, Debug)]
pub struct Located {
    pub number: u16,
    pub frames: u16,
}

// A table of one bucket, of representative 0, set up in a dictionary without a pair.
pub fn make<K: Key, D: Dictionary>(d: &mut D) -> Table
    requires empty { D.Dictionary.pairs d.old ≡ no_pairs }
    requires room { K.Key.width + 1 ≤ D.Dictionary.room d.old }
    ensures sound { Sound K.Key.width (D.Dictionary.pairs d.new) result }
    ensures fresh { Fresh result }
    ensures count { length (D.Dictionary.nodes d.new) ≡ K.Key.width + 1 }
    ensures tally { D.Dictionary.frames d.new ≡ raised (D.Dictionary.frames d.old) (2 * (K.Key.width + 1)) }
    ensures room { D.Dictionary.room d.new ≡ D.Dictionary.room d.old }
{
    let table = Table::new();
    set_up::<K, D>(d, &table, 0);
    table
}

// What a search chooses. At the last level a bucket begins with the key; above it the key's next bit
// tells whether the key lies above or below all that lies under the node.
fn choose(table: &Table, width: u32, bits: u64, found: Found) -> u16
    requires wide { width ≤ 60 }
    requires level { found.level ≤ width }
    requires within { found.low < 128 }
    ensures { result ≡ chosen width bits found.level found.low found.high (prev_of table.now) }
{
    if found.level == width {
        found.low
    } else if (bits >> (width - (found.level + 1))) % 2 == 1 {
        found.high
    } else {
        table.prev(found.low)
    }
}

// The bucket of a key: the last whose representative is at most the key.
pub fn locate<K: Key, D: Dictionary>(d: &mut D, table: &Table, bits: u64) -> Located
    requires below { bits < 2 ^ K.Key.width }
    requires sound { Sound K.Key.width (D.Dictionary.pairs d.old) table.now }
    ensures number { result.number ≡ holder (rep_of table.now) (order_of table.now) bits }
    ensures held { among result.number (order_of table.now) ≡ true }
    ensures frames { result.frames ≡ searching K.Key.width (reps_of table.now) bits }
    ensures few { result.frames ≤ most K.Key.width }
    ensures tally { D.Dictionary.frames d.new ≡ raised (D.Dictionary.frames d.old) result.frames }
    ensures sound { Sound K.Key.width (D.Dictionary.pairs d.new) table.now }
    ensures pairs { D.Dictionary.pairs d.new ≡ D.Dictionary.pairs d.old }
    ensures count { length (D.Dictionary.nodes d.new) ≡ length (D.Dictionary.nodes d.old) }
    ensures room { D.Dictionary.room d.new ≡ D.Dictionary.room d.old }
{
    let width = K::bit_width();
    let found = search::<K, D>(d, bits);
    Located {
        number: choose(table, width, bits, found),
        frames: found.frames,
    }
}

// A new empty bucket of representative `rep`, behind the bucket `before` to which `rep` belongs.
pub fn open_bucket<K: Key, D: Dictionary>(
    d: &mut D,
    table: &mut Table,
    before: u16,
    rep: u64,
) -> Located
    requires sound { Sound K.Key.width (D.Dictionary.pairs d.old) table.old }
    requires behind { before ≡ holder (rep_of table.old) (order_of table.old) rep }
    requires above { rep_of table.old before < rep }
    requires fits { rep < 2 ^ K.Key.width }
    requires few { length (order_of table.old) < 128 }
    requires room { (K.Key.width + 1) * (length (order_of table.old) + 1) ≤ D.Dictionary.room d.old }
    ensures sound { Sound K.Key.width (D.Dictionary.pairs d.new) table.new }
    ensures new { among result.number (order_of table.old) ≡ false }
    ensures shows { Shows table.new (put_after before result.number (order_of table.old)) (with_at (rep_of table.old) result.number rep) (with_at (size_of table.old) result.number 0) (with_at (root_of table.old) result.number no_tree) }
    ensures count { length (D.Dictionary.nodes d.new) ≡ node_count K.Key.width (reps_of table.new) }
    ensures frames { result.frames ≡ turning K.Key.width (reps_of table.old) rep }
    ensures few { result.frames ≤ 2 * (K.Key.width + 1) }
    ensures tally { D.Dictionary.frames d.new ≡ raised (D.Dictionary.frames d.old) result.frames }
    ensures room { D.Dictionary.room d.new ≡ D.Dictionary.room d.old }
{
    let number = table.open(before, rep);
    let frames = set_up::<K, D>(d, table, number);
    Located { number, frames }
}

// A bucket other than the first is no more. The frames made are answered.
pub fn close_bucket<K: Key, D: Dictionary>(d: &mut D, table: &mut Table, number: u16) -> u16
    requires sound { Sound K.Key.width (D.Dictionary.pairs d.old) table.old }
    requires held { among number (order_of table.old) ≡ true }
    requires later { 0 < number }
    ensures sound { Sound K.Key.width (D.Dictionary.pairs d.new) table.new }
    ensures shows { Shows table.new (without number (order_of table.old)) (rep_of table.old) (size_of table.old) (root_of table.old) }
    ensures count { length (D.Dictionary.nodes d.new) ≡ node_count K.Key.width (reps_of table.new) }
    ensures frames { result ≡ turning K.Key.width (reps_of table.old) (rep_of table.old number) }
    ensures few { result ≤ 2 * (K.Key.width + 1) }
    ensures tally { D.Dictionary.frames d.new ≡ raised (D.Dictionary.frames d.old) result }
    ensures room { D.Dictionary.room d.new ≡ D.Dictionary.room d.old }
{
    let frames = take_away::<K, D>(d, table, number);
    table.close(number);
    frames
}

// The definitions at worked numbers.
pub fn examples()
    ensures { Examples }
{}
