// An entry leaves a bucket.
ghost use Rattle.std.specs.Prelude.{◌≡◌, true};
ghost use Rattle.dictionary.specs.Pairs.{among};
ghost use Rattle.entry.specs.Lists.{at, without, filled};
ghost use Rattle.buckets.specs.Tables.{order_of};
ghost use Rattle.forest.specs.Forests.{items_of, Replanted};

use crate::Grove;
use avl::remove;

impl Grove {
    // Takes the entry of a held key out of the tree of its bucket, and its node back into the pool.
    pub fn shrink(&mut self, number: u16, key: u64)
        requires stands { among number (order_of self.old.table) ≡ true }
        requires held { filled (at key (items_of self.old.table self.old.pool number)) ≡ true }
        ensures { Replanted self.old.table self.old.pool self.new.table self.new.pool number (without key (items_of self.old.table self.old.pool number)) }
    {
        let Grove { table, pool } = self;
        let root = table.root(number);
        let shrunk = remove(&mut pool.nodes, root, key);
        pool.give(shrunk.gone);
        table.set_root(number, shrunk.root);
        let size = table.size(number);
        table.set_size(number, size - 1);
    }
}
