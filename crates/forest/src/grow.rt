// An entry comes into a bucket.
ghost use Rattle.std.specs.Prelude.{◌≡◌, ◌<◌, true, [], length};
ghost use Rattle.dictionary.specs.Pairs.{among};
ghost use Rattle.entry.specs.Lists.{at, put};
ghost use Rattle.buckets.specs.Tables.{order_of};
ghost use Rattle.forest.specs.Forests.{items_of, used, Replanted};

use crate::Grove;
use avl::insert;
use entry::Entry;

impl Grove {
    // Puts a new entry into the tree of a bucket, at a free node.
    pub fn grow(&mut self, number: u16, new: Entry)
        requires stands { among number (order_of self.old.table) ≡ true }
        requires new { at new.key (items_of self.old.table self.old.pool number) ≡ [] }
        requires room { length (used self.old.table self.old.pool) < 512 }
        ensures { Replanted self.old.table self.old.pool self.new.table self.new.pool number (put new (items_of self.old.table self.old.pool number)) }
    {
        let Grove { table, pool } = self;
        let Some(fresh) = pool.take() else {
            return unreachable();
        };
        let root = table.root(number);
        let grown = insert(&mut pool.nodes, root, fresh, new);
        table.set_root(number, grown.root);
        let size = table.size(number);
        table.set_size(number, size + 1);
    }
}
