// The ten commands. A command and its record are each other's: the fields that a code does not use are
// zero, and a holder is in its bounds.
ghost use Rattle.std.specs.Prelude.{◌≡◌, MatchResult, ◌≢◌};
ghost use Rattle.ordered.specs.declared.refusal.Refusal.TheVariants.{Malformed};
ghost use Rattle.wire.specs.Commands.{fields};

use crate::holder::Holder;
use crate::record::Record;
use ordered::Refusal;

#[derive(Clone, Copy, PartialEq, Eq, Debug)]
pub enum Command {
    // A name's bits and its route.
    AddName(u64, u64),
    RemoveName(u64),
    FindName(u64),
    // The first name at or above.
    NextName(u64),
    // From a station to a station, both included.
    Lease(u64, u64, Holder),
    // The lease that starts at a station.
    Release(u64, Holder),
    // The lease that covers a station.
    Who(u64),
    // A moment's bits and a note.
    AddEvent(u64, u64),
    RemoveEvent(u64),
    // The earliest event, if it is not after a moment.
    Due(u64),
}

impl From<Command> for Record {
    ghost from_gives = { λ c x. x ≡ fields c };

    fn from(command: Command) -> Record {
        let (code, first, second, note) = match command {
            Command::AddName(key, note) => (1, key, 0, note),
            Command::RemoveName(key) => (2, key, 0, 0),
            Command::FindName(key) => (3, key, 0, 0),
            Command::NextName(key) => (4, key, 0, 0),
            Command::Lease(first, second, holder) => (5, first, second, holder.number() as u64),
            Command::Release(start, holder) => (6, start, 0, holder.number() as u64),
            Command::Who(station) => (7, station, 0, 0),
            Command::AddEvent(key, note) => (8, key, 0, note),
            Command::RemoveEvent(key) => (9, key, 0, 0),
            Command::Due(moment) => (10, moment, 0, 0),
        };
        Record {
            code,
            first,
            second,
            note,
        }
    }
}

// The command that has exactly these fields, if there is one.
impl TryFrom<Record> for Command {
    type Error = Refusal;

    ghost try_from_gives = { λ x r. MatchResult r (λ c. fields c ≡ x) (λ e. (e ≡ Malformed) × ((c : Self) → fields c ≢ x)) };

    fn try_from(form: Record) -> Result<Command, Refusal> {
        let Record {
            code,
            first,
            second,
            note,
        } = form;
        match (code, second, note) {
            (1, 0, note) => Ok(Command::AddName(first, note)),
            (2, 0, 0) => Ok(Command::RemoveName(first)),
            (3, 0, 0) => Ok(Command::FindName(first)),
            (4, 0, 0) => Ok(Command::NextName(first)),
            (5, second, note) => Ok(Command::Lease(first, second, Holder::try_from(note)?)),
            (6, 0, note) => Ok(Command::Release(first, Holder::try_from(note)?)),
            (7, 0, 0) => Ok(Command::Who(first)),
            (8, 0, note) => Ok(Command::AddEvent(first, note)),
            (9, 0, 0) => Ok(Command::RemoveEvent(first)),
            (10, 0, 0) => Ok(Command::Due(first)),
            _ => Err(Refusal::Malformed),
        }
    }
}
