// A cuckoo hash table as a dictionary: two rows of 512 slots, in each of which a node has one home,
// and an overflow row of 768 slots, packed at its front, for the pairs that find no place.
#![tactic(auto)]

mod erase;
mod find;
mod homes;
mod insert;
pub mod table;
mod two_rows;
