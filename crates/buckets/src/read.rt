// What the table says of a bucket, by its number.
ghost use Rattle.std.specs.Prelude.{◌≡◌, ◌<◌, length};
ghost use Rattle.buckets.specs.Tables.{rep_of, size_of, root_of, prev_of, next_of, order_of};

use crate::Table;

impl Table {
    // How many buckets stand.
    pub fn count(&self) -> u16
        ensures { result ≡ length (order_of self.now) }
    {
        self.count
    }

    pub fn rep(&self, number: u16) -> u64
        requires { number < 128 }
        ensures { result ≡ rep_of self.now number }
    {
        self.records[number as usize].rep
    }

    pub fn size(&self, number: u16) -> u16
        requires { number < 128 }
        ensures { result ≡ size_of self.now number }
    {
        self.records[number as usize].size
    }

    pub fn root(&self, number: u16) -> u16
        requires { number < 128 }
        ensures { result ≡ root_of self.now number }
    {
        self.records[number as usize].root
    }

    // The bucket behind, and 0 behind the last.
    pub fn next(&self, number: u16) -> u16
        requires { number < 128 }
        ensures { result ≡ next_of self.now number }
    {
        self.records[number as usize].next
    }

    // The bucket before; before the first stands the last.
    pub fn prev(&self, number: u16) -> u16
        requires { number < 128 }
        ensures { result ≡ prev_of self.now number }
    {
        self.records[number as usize].prev
    }
}
