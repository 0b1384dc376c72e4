// What each command does on the one index it goes to: leases of stretches, and events that fall due.
//
// A lease is an entry of the lease index. Its key is the station where it starts, its note the decimetre
// where it ends, times 2^32, and its holder. No two standing leases share a station: a lease is entered
// only where it shares none, and the one `last` at its end decides that, since of the leases that start
// at or below that end only the highest can reach so far.
#![tactic(auto)]

pub mod answers;
pub mod checks;
pub mod events;
pub mod stretch;
pub mod stretches;
#[cfg(test)]
mod tests;
