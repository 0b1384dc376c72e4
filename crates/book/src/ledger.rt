// What a book is: its view, and what each command answers and does to it.
ghost use Rattle.std.specs.Prelude.{◌≡◌, ◌≤◌, ◌++◌, length, drop};
ghost use Rattle.leases.specs.Stretches.{NoSharedStation};
ghost use Rattle.book.specs.Books.{BookView, Did, Standing, shut, look};

use crate::part::Part;
use entry::Entry;
use ordered::Answer;
use wire::Command;

pub trait Ledger: Sized {
    ghost view: { Self → BookView };

    fn is_shut(&self) -> bool
        ensures { result ≡ shut (view self.now) };

    fn obey(&mut self, command: Command) -> Answer
        ensures { Did (view self.old) command result (view self.new) };

    // How many entries stand in a part.
    fn len(&self, part: Part) -> usize
        ensures { result ≡ length (look part (view self.now)).entries };

    // Writes all entries of a part in rising order, without a frame; places after them stay.
    fn list(&self, part: Part, places: &mut [Entry])
        requires { length (look part (view self.now)).entries ≤ length places.old }
        ensures { places.new ≡ (look part (view self.now)).entries ++ drop (length (look part (view self.now)).entries) places.old };

    ghost standing: { (s : Self) → Standing (view s) };

    // No two standing leases ever share a station.
    ghost apart: { (s : Self) → NoSharedStation (view s).leases.entries };
}
