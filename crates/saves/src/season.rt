// A season of a book: commands and loads one after another, and the law on all their frames.
ghost use Rattle.std.specs.Prelude.{◌≡◌, ◌≤◌, length};
ghost use Rattle.saves.specs.Seasons.{long, Acts, Seasoned};

use crate::load::{Refused, load};
use book::Ledger;
use book::runs::serve;
use ordered::Answer;

// What the next so many bytes of a tape are.
#[derive(Clone, Copy, PartialEq, Eq, Debug)]
pub enum Deed {
    Command(usize),
    Load(usize),
}

#[derive(Clone, Copy, PartialEq, Eq, Debug)]
pub enum Outcome {
    Answered(Answer),
    Loaded(Result<usize, Refused>),
}

impl Deed {
    pub fn length(self) -> usize
        ensures { result ≡ long self }
    {
        match self {
            Deed::Command(length) => length,
            Deed::Load(length) => length,
        }
    }
}

// One command, or one load.
pub fn act<B: Ledger>(book: &mut B, deed: Deed, bytes: &[u8]) -> Outcome
    ensures { Acts (B.Ledger.view book.old) bytes.now deed result (B.Ledger.view book.new) }
{
    match deed {
        Deed::Command(_) => Outcome::Answered(serve(book, bytes)),
        Deed::Load(_) => Outcome::Loaded(load(book, bytes)),
    }
}

// Does one after another what a tape asks for, each with as many bytes as are left of those it asks for.
pub fn season<B: Ledger>(book: &mut B, tape: &[u8], deeds: &[Deed], outcomes: &mut [Outcome])
    requires { length deeds.now ≤ length outcomes.old }
    ensures { Seasoned (B.Ledger.view book.old) tape.now deeds.now outcomes.old outcomes.new (B.Ledger.view book.new) }
{
    let mut at = 0;
    // by index: nothing is known of an element written through an adapter of `iter_mut`
    for (i, deed) in deeds.iter().enumerate() {
        let end = at + deed.length().min(tape.len() - at);
        outcomes[i] = act(book, *deed, &tape[at..end]);
        at = end;
    }
}
