// Commands and answers, and their forms of 32 bytes. Numbers are big-endian.
//
//   byte     0      1 to 7   8 to 15      16 to 23     24 to 31
//   command  code   zero     first key    second key   note
//
//   byte     0      1         2, 3     4, 5     6            7      8 to 15   16 to 23   24 to 31
//   answer   code   refusal   frames   visits   rebuilding   zero   key       note       zero
#![tactic(auto)]

pub mod bytes;
pub mod command;
pub mod holder;
pub mod record;
pub mod reply;

pub use command::Command;
pub use holder::Holder;
pub use record::Record;

#[cfg(test)]
mod tests;
