// What an index holds: a key, by its bits, and a note.
#![tactic(auto)]

#[derive(Clone, Copy, Debug, Default, Eq, PartialEq)]
pub struct Entry {
    pub key: u64,
    pub note: u64,
}
