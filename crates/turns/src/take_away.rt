// Taking away: each node on the way to the representative that names the bucket comes to name its
// neighbour there, and goes if there is none under it.
ghost use Rattle.std.specs.Prelude.{◌≡◌, ◌+◌, ◌*◌, ◌<◌, ◌≤◌, true, map, length, if◌then◌else◌};
ghost use Rattle.dictionary.specs.Pairs.{with_pair, among, raised};
ghost use Rattle.levels.specs.Counts.{turning};
ghost use Rattle.links.specs.Orders.{without, Ordered};
ghost use Rattle.links.specs.Links.{links, parted, parts, node_count};
ghost use Rattle.buckets.specs.Tables.{rep_of, prev_of, next_of, order_of};

use buckets::Table;
use dictionary::Dictionary;
use key::Key;
use levels::node_at;

// One node: a get, then a drop if both links name the bucket, or a put if one does: that link passes
// to the neighbour. The frames made are answered.
fn part_at<D: Dictionary>(d: &mut D, table: &Table, node: u64, number: u16) -> u16
    requires node { 0 < node }
    requires within { number < 128 }
    ensures pairs { D.Dictionary.pairs d.new ≡ with_pair (D.Dictionary.pairs d.old) node (parted (next_of table.now number) (prev_of table.now number) number (D.Dictionary.pairs d.old node)) }
    ensures frames { result ≡ 1 + (if parts number (D.Dictionary.pairs d.old node) then 1 else 0) }
    ensures tally { D.Dictionary.frames d.new ≡ raised (D.Dictionary.frames d.old) result }
    ensures room { D.Dictionary.room d.new ≡ D.Dictionary.room d.old }
{
    match d.get(node) {
        Some((low, high)) => {
            if low == number && high == number {
                let _ = d.drop_pair(node);
                2
            } else if low == number {
                let _ = d.put(node, table.next(number), high);
                2
            } else if high == number {
                let _ = d.put(node, low, table.prev(number));
                2
            } else {
                1
            }
        }
        None => 1,
    }
}

// Each level from the root down.
pub fn take_away<K: Key, D: Dictionary>(d: &mut D, table: &Table, number: u16) -> u16
    requires ordered { Ordered K.Key.width (rep_of table.now) (order_of table.now) }
    requires held { among number (order_of table.now) ≡ true }
    requires pairs { D.Dictionary.pairs d.old ≡ links K.Key.width (rep_of table.now) (order_of table.now) }
    ensures pairs { D.Dictionary.pairs d.new ≡ links K.Key.width (rep_of table.now) (without number (order_of table.now)) }
    ensures count { length (D.Dictionary.nodes d.new) ≡ node_count K.Key.width (map (rep_of table.now) (without number (order_of table.now))) }
    ensures frames { result ≡ turning K.Key.width (map (rep_of table.now) (order_of table.now)) (rep_of table.now number) }
    ensures few { result ≤ 2 * (K.Key.width + 1) }
    ensures tally { D.Dictionary.frames d.new ≡ raised (D.Dictionary.frames d.old) result }
    ensures room { D.Dictionary.room d.new ≡ D.Dictionary.room d.old }
{
    let width = K::bit_width();
    let rep = table.rep(number);
    let mut frames: u16 = 0;
    // `set_up` walks so too: shared, the walk would take all clauses of `part_at` again, with its step as a closure.
    for level in 0..=width {
        let node = node_at(width, rep, level);
        frames += part_at(d, table, node, number);
    }
    frames
}
