// A command in its 32 bytes: the reader and the writer are each other's inverse. They have std's names for
// a format of bytes, as `u64::from_be_bytes`.
ghost use Rattle.std.specs.Prelude.{◌≡◌, length, Ok};
ghost use Rattle.wire.specs.Commands.{fields};
ghost use Rattle.wire.specs.Reading.{Read, Spells, code_of};
ghost use Rattle.wire.specs.Records.{wire};

use crate::command::Command;
use crate::record::Record;
use ordered::Refusal;

impl Command {
    // The command that these bytes spell, if they are 32 and spell one.
    pub fn from_bytes(bytes: &[u8]) -> Result<Command, Refusal>
        ensures read { Read bytes.now result }
        ensures exact { (c : Command) → Spells bytes.now c → result ≡ Ok c }
    {
        Command::try_from(Record::from_bytes(bytes)?)
    }

    pub fn to_bytes(self) -> [u8; 32]
        ensures { result ≡ wire (fields self) }
    {
        Record::from(self).to_bytes()
    }
}

// The code that an answer repeats: 0 where the code is unknown or the length is wrong.
pub fn code_of(bytes: &[u8]) -> u8
    ensures { result ≡ code_of bytes.now }
{
    match bytes {
        [code @ 1..=10, ..] if bytes.len() == 32 => *code,
        _ => 0,
    }
}
