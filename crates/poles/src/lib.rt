// Marker poles by their number: a kind of keys as a caller may bring it, whose type has no order. `Key`
// asks for none, and neither does an index.
#![tactic(auto)]

mod kind;
pub mod pole;

pub use pole::Pole;

#[cfg(test)]
mod tests;
