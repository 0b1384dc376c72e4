// A Robin Hood hash table as a dictionary: one ring of 1,024 slots for at most 768 pairs, so that a
// walk always comes to an empty slot. A node belongs to its home and may stand some slots further on.
#![tactic(auto)]

mod erase;
mod find;
mod home;
mod insert;
mod ring;
pub mod table;
