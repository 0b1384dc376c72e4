// What is wrong with a command's keys, before any frame: one is too large for its kind, or a lease's two
// keys are out of order or on two pistes.
ghost use Rattle.std.specs.Prelude.{◌≡◌, ◌^◌, nat_le};
ghost use Rattle.std.specs.Result.{result_err};
ghost use Rattle.leases.specs.Checks.{early as early_of, unfit as unfit_of};

use key::Key;
use key::kinds::{Moment, Name, Station};
use ordered::Refusal;
use wire::Command;

pub fn early(command: Command) -> Result<(), Refusal>
    ensures { result_err result ≡ early_of command }
{
    let large = match command {
        Command::AddName(name, _)
        | Command::RemoveName(name)
        | Command::FindName(name)
        | Command::NextName(name) => is_too_large::<Name>(name),
        Command::Lease(first, second, _) => return unfit(first, second),
        Command::Release(station, _) | Command::Who(station) => is_too_large::<Station>(station),
        Command::AddEvent(moment, _) | Command::RemoveEvent(moment) | Command::Due(moment) => {
            is_too_large::<Moment>(moment)
        }
    };
    if large {
        Err(Refusal::TooLarge)
    } else {
        Ok(())
    }
}

// Whether these are no key's bits.
fn is_too_large<K: Key>(bits: u64) -> bool
    ensures { result ≡ nat_le (2 ^ K.Key.width) bits }
{
    bits >= 1u64 << K::bit_width()
}

// The two ends of a lease: their size, then their order, then their piste.
#[tactic(auto, unfolding(crate::specs::Checks::unfit))]
fn unfit(first: u64, second: u64) -> Result<(), Refusal>
    ensures { result_err result ≡ unfit_of first second }
{
    let (Some(start), Some(end)) = (Station::from_bits(first), Station::from_bits(second)) else {
        return Err(Refusal::TooLarge);
    };
    if first > second {
        Err(Refusal::Order)
    } else if start.piste() != end.piste() {
        Err(Refusal::Piste)
    } else {
        Ok(())
    }
}
