// Saves and loads: a book as records of 32 bytes, and back.
//
// A save is canonical: names, leases and events, each in rising key order. A load takes records in just
// that order, so that a load after a save gives the same entries, and a save after a load the same bytes.
#![tactic(auto)]

pub mod load;
pub mod save;
pub mod season;

pub use load::Refused;
pub use season::{Deed, Outcome};
