// Setting up: each node on the way to the representative comes to name the bucket if it is the first
// or the last under it.
ghost use Rattle.std.specs.Prelude.{◌≡◌, ℕ, ◌+◌, ◌*◌, ◌<◌, ◌≤◌, true, map, length, if◌then◌else◌, Some, None};
ghost use Rattle.dictionary.specs.Pairs.{with_pair, among, raised};
ghost use Rattle.levels.specs.Counts.{turning};
ghost use Rattle.links.specs.Orders.{without, Ordered};
ghost use Rattle.links.specs.Links.{links, joined, joins, node_count};
ghost use Rattle.buckets.specs.Tables.{rep_of, order_of};

use buckets::Table;
use dictionary::Dictionary;
use key::Key;
use levels::node_at;

// One node: a get, and a put if its pair is new or alters. The frames made are answered.
fn join_at<D: Dictionary>(d: &mut D, table: &Table, node: u64, number: u16) -> u16
    requires node { 0 < node }
    requires within { number < 128 }
    requires links { (low high : ℕ) → D.Dictionary.pairs d.old node ≡ Some (low, high) → (low < 128) × (high < 128) }
    requires room { D.Dictionary.pairs d.old node ≡ None → length (D.Dictionary.nodes d.old) < D.Dictionary.room d.old }
    ensures pairs { D.Dictionary.pairs d.new ≡ with_pair (D.Dictionary.pairs d.old) node (joined (rep_of table.now) number (D.Dictionary.pairs d.old node)) }
    ensures frames { result ≡ 1 + (if joins (rep_of table.now) number (D.Dictionary.pairs d.old node) then 1 else 0) }
    ensures tally { D.Dictionary.frames d.new ≡ raised (D.Dictionary.frames d.old) result }
    ensures room { D.Dictionary.room d.new ≡ D.Dictionary.room d.old }
{
    match d.get(node) {
        Some((low, high)) => {
            let rep = table.rep(number);
            let lowest = rep < table.rep(low);
            let highest = table.rep(high) < rep;
            if lowest || highest {
                let first = if lowest { number } else { low };
                let last = if highest { number } else { high };
                let _ = d.put(node, first, last);
                2
            } else {
                1
            }
        }
        None => {
            let _ = d.put(node, number, number);
            2
        }
    }
}

// Each level from the root down. No put is refused while all the nodes of the order have room.
pub fn set_up<K: Key, D: Dictionary>(d: &mut D, table: &Table, number: u16) -> u16
    requires ordered { Ordered K.Key.width (rep_of table.now) (order_of table.now) }
    requires held { among number (order_of table.now) ≡ true }
    requires pairs { D.Dictionary.pairs d.old ≡ links K.Key.width (rep_of table.now) (without number (order_of table.now)) }
    requires room { (K.Key.width + 1) * length (order_of table.now) ≤ D.Dictionary.room d.old }
    ensures pairs { D.Dictionary.pairs d.new ≡ links K.Key.width (rep_of table.now) (order_of table.now) }
    ensures count { length (D.Dictionary.nodes d.new) ≡ node_count K.Key.width (map (rep_of table.now) (order_of table.now)) }
    ensures frames { result ≡ turning K.Key.width (map (rep_of table.now) (order_of table.now)) (rep_of table.now number) }
    ensures few { result ≤ 2 * (K.Key.width + 1) }
    ensures tally { D.Dictionary.frames d.new ≡ raised (D.Dictionary.frames d.old) result }
    ensures room { D.Dictionary.room d.new ≡ D.Dictionary.room d.old }
{
    let width = K::bit_width();
    let rep = table.rep(number);
    let mut frames: u16 = 0;
    // `take_away` walks so too: shared, the walk would take all clauses of `join_at` again, with its step as a closure.
    for level in 0..=width {
        let node = node_at(width, rep, level);
        frames += join_at(d, table, node, number);
    }
    frames
}
