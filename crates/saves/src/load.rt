// Loading: records taken one after another, up to a refused one.
ghost use Rattle.std.specs.Prelude.{◌≡◌, ◌%◌, length, Err, OnOk};
ghost use Rattle.saves.specs.Saves.{saved};
ghost use Rattle.saves.specs.Loads.{in_turn, Tried, TakesAll, unready, whole_refused, Loads, Restores};
ghost use Rattle.std.specs.Result.{result_err};

use book::{Ledger, Part};
use ordered::Refusal;
use wire::{Command, Record};

// Why a load ended early: the refusal, and the number of the record that was refused, which is how many
// were taken before it.
#[derive(Clone, Copy, PartialEq, Eq, Debug)]
pub struct Refused {
    pub refusal: Refusal,
    pub number: usize,
}

// A load that was refused as a whole.
impl From<Refusal> for Refused {
    ghost from_gives = { λ e r. Err r ≡ whole_refused e };

    fn from(refusal: Refusal) -> Refused {
        Refused { refusal, number: 0 }
    }
}

// Whether a record may stand after the one before it: by the numbers of the format, as records are sorted
// by them, also where no command has the code.
fn in_turn(before: Option<Record>, form: Record) -> bool
    ensures { result ≡ in_turn before form }
{
    let follows = match before {
        Some(last) => (last.code, last.first) < (form.code, form.first),
        None => true,
    };
    matches!(form.code, 1 | 5 | 8) && follows
}

// Takes one record, if it spells a command, is in turn, and its command is accepted.
fn take<B: Ledger>(book: &mut B, before: Option<Record>, bytes: &[u8]) -> Result<Record, Refusal>
    ensures { Tried (B.Ledger.view book.old) before bytes.now result (B.Ledger.view book.new) }
{
    let command = Command::from_bytes(bytes)?;
    let form = Record::from(command);
    if !in_turn(before, form) {
        return Err(Refusal::Sequence);
    }
    book.obey(command).outcome?;
    Ok(form)
}

// Takes the records one after another from the first.
fn take_all<B: Ledger>(book: &mut B, bytes: &[u8]) -> Result<usize, Refused>
    requires { length bytes.now % 32 ≡ 0 }
    ensures { TakesAll (B.Ledger.view book.old) bytes.now result (B.Ledger.view book.new) }
{
    let mut before = None;
    for (number, part) in bytes.chunks_exact(32).enumerate() {
        match take(book, before, part) {
            Ok(form) => before = Some(form),
            Err(refusal) => return Err(Refused { refusal, number }),
        }
    }
    Ok(bytes.len() / 32)
}

// Whether a load may begin: onto a book without an entry, with whole records.
fn may_begin<B: Ledger>(book: &B, length: usize) -> Result<(), Refusal>
    ensures { result_err result ≡ unready (B.Ledger.view book.now) length }
{
    if book.is_shut() {
        return Err(Refusal::Shut);
    }
    if book.len(Part::Names) > 0 || book.len(Part::Leases) > 0 || book.len(Part::Events) > 0 {
        return Err(Refusal::Standing);
    }
    if length % 32 != 0 {
        return Err(Refusal::Length);
    }
    Ok(())
}

// Loads a save onto a book without an entry.
pub fn load<B: Ledger>(book: &mut B, bytes: &[u8]) -> Result<usize, Refused>
    ensures loads { Loads (B.Ledger.view book.old) bytes.now result (B.Ledger.view book.new) }
    ensures restores { Restores (B.Ledger.view book.old) bytes.now result (B.Ledger.view book.new) }
    ensures again { OnOk result (saved (B.Ledger.view book.new) ≡ bytes.now) }
{
    may_begin(book, bytes.len())?;
    take_all(book, bytes)
}
