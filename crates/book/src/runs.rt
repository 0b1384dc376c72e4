// Commands in bytes, one by one and as a script.
ghost use Rattle.std.specs.Prelude.{◌≡◌, ◌+◌, ◌*◌, ◌/◌, ◌≤◌, length};
ghost use Rattle.book.specs.Serving.{Served, Answered};
ghost use Rattle.book.specs.Runs.{Ran, parts};

use crate::ledger::Ledger;
use ordered::{Answer, Refusal};
use wire::Command;
use wire::bytes::code_of;
use wire::reply::reply;

// What the book answers to some bytes: 32 that spell a command, or others.
pub fn serve<B: Ledger>(book: &mut B, bytes: &[u8]) -> Answer
    ensures { Served (B.Ledger.view book.old) bytes.now result (B.Ledger.view book.new) }
{
    if book.is_shut() {
        return Answer::refused(Refusal::Shut, 0, 0);
    }
    match Command::from_bytes(bytes) {
        Ok(command) => book.obey(command),
        Err(refusal) => Answer::refused(refusal, 0, 0),
    }
}

// The same, with the answer in its 32 bytes.
pub fn answer<B: Ledger>(book: &mut B, bytes: &[u8]) -> [u8; 32]
    ensures { Answered (B.Ledger.view book.old) bytes.now result (B.Ledger.view book.new) }
{
    let told = serve(book, bytes);
    reply(code_of(bytes), told)
}

// Answers the commands of a script one after another and tells how many answers it wrote. A last part
// under 32 bytes is answered too.
pub fn run<B: Ledger>(book: &mut B, script: &[u8], answers: &mut [u8]) -> usize
    requires { 32 * parts (length script.now) ≤ length answers.old }
    ensures count { result ≡ parts (length script.now) }
    ensures ran { Ran (B.Ledger.view book.old) script.now answers.old result answers.new (B.Ledger.view book.new) }
{
    // by index: nothing is known of bytes written through `chunks_mut` or an adapter of it
    for (i, part) in script.chunks(32).enumerate() {
        answers[32 * i..32 * i + 32].copy_from_slice(&answer(book, part));
    }
    script.len().div_ceil(32)
}
