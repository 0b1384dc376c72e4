// The words of an ordered index: its calls and answers, the refusals with their numbers, and the
// sorted list that every index answers as.
#![tactic(auto)]

pub mod calls;
pub mod index;
pub mod refusal;
pub mod sorted;

pub use calls::{Answer, Call, Rebuilding};
pub use refusal::Refusal;
