// Two buckets' trees made one, for a merge.
ghost use Rattle.std.specs.Prelude.{◌≡◌, true, ◌++◌, ◌≢◌};
ghost use Rattle.dictionary.specs.Pairs.{among};
ghost use Rattle.entry.specs.Lists.{Rising};
ghost use Rattle.buckets.specs.Tables.{order_of};
ghost use Rattle.forest.specs.Forests.{items_of, United};

use crate::Grove;
use avl::build;
use buckets::NO_TREE;
use trees::walk;

impl Grove {
    // All nodes of a bucket and of the one behind it become the tree of the first; the other has none.
    pub fn unite(&mut self, number: u16, other: u16)
        requires stands { among number (order_of self.old.table) ≡ true }
        requires beside { among other (order_of self.old.table) ≡ true }
        requires apart { number ≢ other }
        requires rising { Rising (items_of self.old.table self.old.pool number ++ items_of self.old.table self.old.pool other) }
        ensures { United self.old.table self.old.pool self.new.table self.new.pool number other }
    {
        let Grove { table, pool } = self;
        let mut row = [0u16; 512];
        let middle = walk(&pool.nodes, table.root(number), &mut row, 0);
        let count = walk(&pool.nodes, table.root(other), &mut row, middle);
        let (all, _) = row.split_at(count);
        let root = build(&mut pool.nodes, all);
        table.set_root(number, root);
        table.set_size(number, count as u16);
        table.set_root(other, NO_TREE);
        table.set_size(other, 0);
    }
}
