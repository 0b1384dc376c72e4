// Saving, without a frame.
ghost use Rattle.std.specs.Prelude.{◌≡◌, ◌+◌, ◌*◌, ◌^◌, ◌<◌, ◌≤◌, false, ◌++◌, length, take, drop};
ghost use Rattle.std.specs.List.{AllByRecursion};
ghost use Rattle.entry.specs.declared.Entry.{Entry as AnEntry};
ghost use Rattle.book.specs.Books.{look, shut as is_shut};
ghost use Rattle.saves.specs.Saves.{form as form_of, forms, wires, Saved};

use book::{Ledger, Part};
use entry::Entry;
use leases::stretch::{finish, holder};
use ordered::Refusal;
use wire::Record;

// The record of an entry, by the codes of the format: a command made of the entry first would need its
// holder proved to be one.
fn form(part: Part, entry: Entry) -> Record
    requires { entry.key < 2 ^ 60 }
    ensures { result ≡ form_of part entry }
{
    let (code, second, note) = match part {
        Part::Names => (1, 0, entry.note),
        Part::Leases => (5, finish(entry), holder(entry)),
        Part::Events => (8, 0, entry.note),
    };
    Record {
        code,
        first: entry.key,
        second,
        note,
    }
}

// Writes the entries' records one after another, from a place on.
fn write(part: Part, entries: &[Entry], out: &mut [u8], at: usize)
    requires keys { AllByRecursion (λ (e : AnEntry). e.key < 2 ^ 60) entries.now }
    requires room { at + 32 * length entries.now ≤ length out.old }
    ensures { out.new ≡ take at out.old ++ (wires (forms part entries.now) ++ drop (at + 32 * length entries.now) out.old) }
{
    // by index: nothing is known of bytes written through `chunks_mut` or an adapter of it
    for (i, entry) in entries.iter().enumerate() {
        let start = at + 32 * i;
        let bytes = form(part, *entry).to_bytes();
        out[start..start + 32].copy_from_slice(&bytes);
    }
}

// Writes the records of one part of a book, from a place of the caller's buffer on, and tells the place after them.
fn write_part<B: Ledger>(book: &B, part: Part, out: &mut [u8], at: usize) -> usize
    requires unshut { is_shut (B.Ledger.view book.now) ≡ false }
    requires room { at + 32 * length (look part (B.Ledger.view book.now)).entries ≤ length out.old }
    ensures place { result ≡ at + 32 * length (look part (B.Ledger.view book.now)).entries }
    ensures bytes { out.new ≡ take at out.old ++ (wires (forms part (look part (B.Ledger.view book.now)).entries) ++ drop result out.old) }
{
    // all that a part may hold: there is no heap
    let mut places = [Entry { key: 0, note: 0 }; 256];
    book.list(part, &mut places);
    let count = book.len(part);
    write(part, &places[0..count], out, at);
    at + 32 * count
}

// Writes the book's records and answers how many bytes they take.
pub fn save<B: Ledger>(book: &B, out: &mut [u8]) -> Result<usize, Refusal>
    ensures { Saved (B.Ledger.view book.now) out.old result out.new }
{
    if book.is_shut() {
        return Err(Refusal::Shut);
    }
    let count = book.len(Part::Names) + book.len(Part::Leases) + book.len(Part::Events);
    if 32 * count > out.len() {
        return Err(Refusal::Room);
    }
    let names = write_part(book, Part::Names, out, 0);
    let leases = write_part(book, Part::Leases, out, names);
    Ok(write_part(book, Part::Events, out, leases))
}
