// A bucket's tree made two, for a split.
ghost use Rattle.std.specs.Prelude.{◌≡◌, ◌/◌, ◌<◌, ◌≤◌, true, [], length, drop, ◌≢◌};
ghost use Rattle.dictionary.specs.Pairs.{among};
ghost use Rattle.entry.specs.Lists.{first};
ghost use Rattle.buckets.specs.Tables.{order_of};
ghost use Rattle.forest.specs.Forests.{items_of, Halved};

use crate::Grove;
use avl::build;
use trees::walk;

impl Grove {
    // The lowest key of a bucket's upper half.
    pub fn middle_key(&self, number: u16) -> u64
        requires stands { among number (order_of self.now.table) ≡ true }
        requires some { 1 ≤ length (items_of self.now.table self.now.pool number) }
        ensures { result ≡ (first (drop (length (items_of self.now.table self.now.pool number) / 2) (items_of self.now.table self.now.pool number))).key }
    {
        let mut row = [0u16; 512];
        let count = walk(&self.pool.nodes, self.table.root(number), &mut row, 0);
        self.pool.nodes[row[count / 2] as usize].key
    }

    // The upper half of a bucket's nodes becomes the tree of another bucket, which has none yet.
    pub fn halve(&mut self, number: u16, other: u16)
        requires stands { among number (order_of self.old.table) ≡ true }
        requires beside { among other (order_of self.old.table) ≡ true }
        requires apart { number ≢ other }
        requires empty { items_of self.old.table self.old.pool other ≡ [] }
        ensures { Halved self.old.table self.old.pool self.new.table self.new.pool number other }
    {
        let Grove { table, pool } = self;
        let mut row = [0u16; 512];
        let count = walk(&pool.nodes, table.root(number), &mut row, 0);
        let (lower, rest) = row.split_at(count / 2);
        let (upper, _) = rest.split_at(count - count / 2);
        let low_root = build(&mut pool.nodes, lower);
        let high_root = build(&mut pool.nodes, upper);
        table.set_root(number, low_root);
        table.set_size(number, lower.len() as u16);
        table.set_root(other, high_root);
        table.set_size(other, upper.len() as u16);
    }
}
