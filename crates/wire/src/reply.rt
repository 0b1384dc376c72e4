// An answer in its 32 bytes. A refusal has no key, no note and no rebuilding.
ghost use Rattle.std.specs.Prelude.{◌≡◌};
ghost use Rattle.wire.specs.Replies.{reply as reply_of};

use entry::Entry;
use ordered::Answer;

// The code is a number, since it may be that of no command.
pub fn reply(code: u8, answer: Answer) -> [u8; 32]
    ensures { result ≡ reply_of code answer }
{
    let (refusal, rebuilding, entry) = match answer.outcome {
        Ok(entry) => (0, answer.rebuilding.number(), entry),
        Err(refusal) => (refusal.number(), 0, Entry { key: 0, note: 0 }),
    };
    let mut bytes = [0; 32];
    bytes[0] = code;
    bytes[1] = refusal;
    bytes[2..4].copy_from_slice(&answer.frames.to_be_bytes());
    bytes[4..6].copy_from_slice(&answer.visits.to_be_bytes());
    bytes[6] = rebuilding;
    bytes[8..16].copy_from_slice(&entry.key.to_be_bytes());
    bytes[16..24].copy_from_slice(&entry.note.to_be_bytes());
    bytes
}
