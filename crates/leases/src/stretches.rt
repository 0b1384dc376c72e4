// The lease index, in which no two standing leases share a station, and the commands on it. Each asks
// that the index is not shut: the book has looked at all three, and a shut book answers for them.
ghost use Rattle.std.specs.Prelude.{◌≡◌, ◌^◌, ◌<◌, false, None};
ghost use Rattle.leases.specs.Checks.{unfit};
ghost use Rattle.leases.specs.Plans.{Planned};
ghost use Rattle.leases.specs.Stretches.{Spaced, Spaced-prop};
ghost use Rattle.leases.specs.Commands.{lease_plan, release_plan, who_plan};

use crate::answers::joined;
use crate::stretch::{entered, finish, holder as holder_of};
use key::kinds::Station;
use ordered::index::OrderedIndex;
use ordered::{Answer, Refusal};
use wire::Holder;

#[derive(Drop)]
pub struct Leases<L: OrderedIndex<Station>> {
    pub index: L,
    ghost spaced: { Spaced (L.view index).entries } by { Spaced-prop (L.view index).entries },
}

impl<L: OrderedIndex<Station>> Leases<L> {
    // One last at the lease's end and, if its stations are free, one add.
    pub fn lease(&mut self, first: u64, second: u64, holder: Holder) -> Answer
        requires unshut { (L.OrderedIndex.view self.old.index).shut ≡ false }
        requires fit { unfit first second ≡ None }
        ensures { Planned (L.OrderedIndex.view self.old.index) (lease_plan (L.OrderedIndex.view self.old.index) first second holder.number) result (L.OrderedIndex.view self.new.index) }
    {
        if self.index.len() >= self.index.limit() {
            return Answer::refused(Refusal::Full, 0, 0);
        }
        let before = self.index.last(second);
        if let Ok(standing) = before.outcome {
            if finish(standing) >= first {
                return Answer::refused(Refusal::Shared, before.frames, before.visits);
            }
        }
        let entry = entered(first, second, holder);
        let added = self.index.add(entry.key, entry.note);
        joined(before, added)
    }

    // Find and, for its own holder, remove.
    pub fn release(&mut self, start: u64, holder: Holder) -> Answer
        requires unshut { (L.OrderedIndex.view self.old.index).shut ≡ false }
        requires fit { start < 2 ^ 32 }
        ensures { Planned (L.OrderedIndex.view self.old.index) (release_plan (L.OrderedIndex.view self.old.index) start holder.number) result (L.OrderedIndex.view self.new.index) }
    {
        let found = self.index.find(start);
        let Ok(standing) = found.outcome else {
            return found;
        };
        if holder_of(standing) != holder.number() as u64 {
            return Answer::refused(Refusal::Holder, found.frames, found.visits);
        }
        let removed = self.index.remove(start);
        joined(found, removed)
    }

    // The last lease that starts at or below a station, if it reaches it.
    pub fn who(&mut self, station: u64) -> Answer
        requires unshut { (L.OrderedIndex.view self.old.index).shut ≡ false }
        requires fit { station < 2 ^ 32 }
        ensures { Planned (L.OrderedIndex.view self.old.index) (who_plan (L.OrderedIndex.view self.old.index) station) result (L.OrderedIndex.view self.new.index) }
    {
        let below = self.index.last(station);
        if let Ok(standing) = below.outcome {
            if finish(standing) >= station {
                return below;
            }
        }
        Answer::refused(Refusal::Absent, below.frames, below.visits)
    }
}
