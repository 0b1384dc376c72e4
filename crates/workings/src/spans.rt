// The entries from a first to a second key, both included.
//
// The walk goes from bucket to bucket, from that of the first key on to the last bucket.
ghost use Rattle.std.specs.Prelude.{◌≡◌, ◌≤◌, true, length};
ghost use Rattle.dictionary.specs.Pairs.{among};
ghost use Rattle.entry.specs.Lists.{between};
ghost use Rattle.buckets.specs.Tables.{order_of};
ghost use Rattle.inside.specs.Spans.{onward, over};

use entry::Entry;
use forest::Grove;

// How many entries from first to second the buckets from `number` on have.
pub fn count_span(grove: &Grove, number: u16, first: u64, second: u64) -> usize
    requires { among number (order_of grove.now.table) ≡ true }
    ensures { result ≡ length (between first second (onward grove.now.table grove.now.pool number)) }
{
    let mut sum = 0;
    for bucket in grove.table.onward(number) {
        let root = grove.table.root(bucket);
        sum += trees::count(&grove.pool.nodes, root, first, second);
    }
    sum
}

// Writes these entries into the first places, in rising order.
pub fn write_span(grove: &Grove, number: u16, first: u64, second: u64, places: &mut [Entry])
    requires held { among number (order_of grove.now.table) ≡ true }
    requires room { length (between first second (onward grove.now.table grove.now.pool number)) ≤ length places.old }
    ensures { places.new ≡ over (between first second (onward grove.now.table grove.now.pool number)) places.old }
{
    let mut place = 0;
    for bucket in grove.table.onward(number) {
        let root = grove.table.root(bucket);
        place = trees::span(&grove.pool.nodes, root, first, second, places, place);
    }
}
