// A new table, and buckets opened and closed.
ghost use Rattle.std.specs.Prelude.{◌≡◌, ◌+◌, ◌<◌, true, false, length, if◌then◌else◌, ◌==◌};
ghost use Rattle.dictionary.specs.Pairs.{among};
ghost use Rattle.links.specs.Orders.{with_at, put_after, without};
ghost use Rattle.buckets.specs.Tables.{rep_of, size_of, root_of, order_of, no_tree, Shows, Fresh};

use crate::{Bucket, NO_TREE, Table};
use std::array;

// The record of a number in a new table: 0 is a ring of its own, and each other one leads to the next.
fn unused(number: usize) -> Bucket
    requires { number < 128 }
    ensures { result ≡ record { rep = 0; size = 0; root = no_tree; prev = 0; next = (if number == 0 then 0 else number + 1) } }
{
    Bucket {
        rep: 0,
        size: 0,
        root: NO_TREE,
        prev: 0,
        next: if number == 0 { 0 } else { (number + 1) as u16 },
    }
}

impl Table {
    // One empty bucket, number 0 of representative 0; the other records are free, from 1 on.
    pub fn new() -> Table
        ensures { Fresh result }
    {
        Table {
            records: array::from_fn(unused),
            count: 1,
            free: 1,
        }
    }

    // A free record becomes an empty bucket behind the bucket `before`.
    pub fn open(&mut self, before: u16, rep: u64) -> u16
        requires behind { among before (order_of self.old) ≡ true }
        requires room { length (order_of self.old) < 128 }
        ensures new { among result (order_of self.old) ≡ false }
        ensures shows { Shows self.new (put_after before result (order_of self.old)) (with_at (rep_of self.old) result rep) (with_at (size_of self.old) result 0) (with_at (root_of self.old) result no_tree) }
    {
        let number = self.free;
        let next = self.next(before);
        self.free = self.next(number);
        self.records[number as usize] = Bucket {
            rep,
            size: 0,
            root: NO_TREE,
            prev: before,
            next,
        };
        self.records[before as usize].next = number;
        self.records[next as usize].prev = number;
        self.count += 1;
        number
    }

    // A bucket other than the first becomes a free record.
    pub fn close(&mut self, number: u16)
        requires held { among number (order_of self.old) ≡ true }
        requires later { 0 < number }
        ensures { Shows self.new (without number (order_of self.old)) (rep_of self.old) (size_of self.old) (root_of self.old) }
    {
        let prev = self.prev(number);
        let next = self.next(number);
        self.records[prev as usize].next = next;
        self.records[next as usize].prev = prev;
        self.records[number as usize].next = self.free;
        self.free = number;
        self.count -= 1;
    }
}
