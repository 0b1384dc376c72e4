// The pass book as it is used: three y-fast indexes of 256 entries at most, each on a memory module of its
// own, of any lawful makes.
//
// None of these calls asks anything of its caller. A module that does not fit gives a shut index, and a book
// with a shut index refuses everything.
#![tactic(auto)]

ghost use Rattle.std.specs.Prelude.{length};
ghost use Rattle.console.specs.Opening.{given, NewBook, RanNew, SeasonNew};

use book::runs::run;
use book::{Book, Ledger};
use dictionary::Dictionary;
use key::kinds::{Moment, Name, Station};
use saves::season::season;
use saves::{Deed, Outcome};
use yfast::index::YFast;

// The book of names, leases and events.
pub type PassBook<A, B, C> = Book<YFast<Name, A>, YFast<Station, B>, YFast<Moment, C>>;

// A memory module for each of the three.
#[derive(Drop)]
pub struct Modules<A, B, C> {
    pub names: A,
    pub leases: B,
    pub events: C,
}

const ROOM: u32 = 256;

// A new book, without an entry.
pub fn new_book<A: Dictionary, B: Dictionary, C: Dictionary>(
    modules: Modules<A, B, C>,
) -> PassBook<A, B, C>
    ensures { NewBook (given (A.Dictionary.pairs modules.names) (A.Dictionary.room modules.names) (length (A.Dictionary.nodes modules.names)) (A.Dictionary.frames modules.names)) (given (B.Dictionary.pairs modules.leases) (B.Dictionary.room modules.leases) (length (B.Dictionary.nodes modules.leases)) (B.Dictionary.frames modules.leases)) (given (C.Dictionary.pairs modules.events) (C.Dictionary.room modules.events) (length (C.Dictionary.nodes modules.events)) (C.Dictionary.frames modules.events)) (⟦<PassBook<A, B, C> as Ledger>⟧.view result) }
{
    Book::new(
        YFast::new(ROOM, modules.names),
        YFast::new(ROOM, modules.leases),
        YFast::new(ROOM, modules.events),
    )
}

// Makes a book and runs a script on it, while there are 32 bytes for the next answer.
pub fn run_new<A: Dictionary, B: Dictionary, C: Dictionary>(
    modules: Modules<A, B, C>,
    script: &[u8],
    answers: &mut [u8],
) -> PassBook<A, B, C>
    ensures { RanNew (given (A.Dictionary.pairs modules.names) (A.Dictionary.room modules.names) (length (A.Dictionary.nodes modules.names)) (A.Dictionary.frames modules.names)) (given (B.Dictionary.pairs modules.leases) (B.Dictionary.room modules.leases) (length (B.Dictionary.nodes modules.leases)) (B.Dictionary.frames modules.leases)) (given (C.Dictionary.pairs modules.events) (C.Dictionary.room modules.events) (length (C.Dictionary.nodes modules.events)) (C.Dictionary.frames modules.events)) script.now answers.old answers.new (⟦<PassBook<A, B, C> as Ledger>⟧.view result) }
{
    let mut book = new_book(modules);
    let count = script.len().div_ceil(32).min(answers.len() / 32);
    let end = (32 * count).min(script.len());
    run(&mut book, &script[0..end], answers);
    book
}

// Makes a book and does the deeds of a tape on it, commands and loads, while there are places for their outcomes.
pub fn season_new<A: Dictionary, B: Dictionary, C: Dictionary>(
    modules: Modules<A, B, C>,
    tape: &[u8],
    deeds: &[Deed],
    outcomes: &mut [Outcome],
) -> PassBook<A, B, C>
    ensures { SeasonNew (given (A.Dictionary.pairs modules.names) (A.Dictionary.room modules.names) (length (A.Dictionary.nodes modules.names)) (A.Dictionary.frames modules.names)) (given (B.Dictionary.pairs modules.leases) (B.Dictionary.room modules.leases) (length (B.Dictionary.nodes modules.leases)) (B.Dictionary.frames modules.leases)) (given (C.Dictionary.pairs modules.events) (C.Dictionary.room modules.events) (length (C.Dictionary.nodes modules.events)) (C.Dictionary.frames modules.events)) tape.now deeds.now outcomes.old outcomes.new (⟦<PassBook<A, B, C> as Ledger>⟧.view result) }
{
    let mut book = new_book(modules);
    let count = deeds.len().min(outcomes.len());
    season(&mut book, tape, &deeds[0..count], outcomes);
    book
}
