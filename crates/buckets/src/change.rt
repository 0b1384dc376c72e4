// One record changed: a bucket's size, or the root of its tree. Each call names its one field, so that
// it says of all others that they stay.
ghost use Rattle.std.specs.Prelude.{◌≡◌, ◌<◌};
ghost use Rattle.links.specs.Orders.{with_at};
ghost use Rattle.buckets.specs.Tables.{rep_of, size_of, root_of, prev_of, next_of, order_of, Reads};

use crate::Table;

impl Table {
    pub fn set_size(&mut self, number: u16, size: u16)
        requires { number < 128 }
        ensures reads { Reads self.old self.new (rep_of self.old) (with_at (size_of self.old) number size) (root_of self.old) (prev_of self.old) (next_of self.old) }
        ensures order { order_of self.new ≡ order_of self.old }
    {
        self.records[number as usize].size = size;
    }

    pub fn set_root(&mut self, number: u16, root: u16)
        requires { number < 128 }
        ensures reads { Reads self.old self.new (rep_of self.old) (size_of self.old) (with_at (root_of self.old) number root) (prev_of self.old) (next_of self.old) }
        ensures order { order_of self.new ≡ order_of self.old }
    {
        self.records[number as usize].root = root;
    }
}
