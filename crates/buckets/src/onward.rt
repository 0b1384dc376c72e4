// The buckets from one on to the last, in their order.
ghost use Rattle.std.specs.Prelude.{◌≡◌, true};
ghost use Rattle.std.specs.Iterator.{YieldsFirst, item_count};
ghost use Rattle.dictionary.specs.Pairs.{among};
ghost use Rattle.buckets.specs.Tables.{order_of};
ghost use Rattle.buckets.specs.Onwards.{since, left, Stands};

use crate::Table;

// The walk goes by number, and is over where the ring comes back to the first bucket.
#[derive(Drop)]
pub struct Onward<'a> {
    table: &'a Table,
    at: Option<u16>,
}

impl Table {
    pub fn onward(&self, number: u16) -> Onward<'_>
        requires { among number (order_of self.now) ≡ true }
        ensures stands { Stands result }
        ensures left { left result ≡ since number (order_of self.now) }
    {
        Onward {
            table: self,
            at: Some(number),
        }
    }
}

impl<'a> Iterator for Onward<'a> {
    type Item = u16;

    ghost can_next = { Stands };

    ghost next_gives = { YieldsFirst left };

    ghost remaining = { item_count left };

    fn next(&mut self) -> Option<u16> {
        let number = self.at?;
        let next = self.table.next(number);
        self.at = (next != 0).then_some(next);
        Some(number)
    }
}
