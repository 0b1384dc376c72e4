// The pass book: slope names, leases of stretches and blade events, each in an ordered index of its own
// with room for 256 entries.
//
// What a book means to its callers is the trait `Ledger`; all that is built on a book rests on that trait
// alone, and never sees an index.
#![tactic(auto)]

pub mod book;
pub mod ledger;
pub mod part;
pub mod runs;

pub use book::Book;
pub use ledger::Ledger;
pub use part::Part;
