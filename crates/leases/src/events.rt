// Events that fall due. The index is not shut: the book has looked.
ghost use Rattle.std.specs.Prelude.{◌≡◌, ◌<◌, false};
ghost use Rattle.leases.specs.Plans.{Planned};
ghost use Rattle.leases.specs.Commands.{due_plan};

use crate::answers::joined;
use key::kinds::Moment;
use ordered::index::OrderedIndex;
use ordered::{Answer, Refusal};

// The next event from 0 on and, if it is not after the moment, its removal.
pub fn due<E: OrderedIndex<Moment>>(events: &mut E, moment: u64) -> Answer
    requires { (E.OrderedIndex.view events.old).shut ≡ false }
    ensures { Planned (E.OrderedIndex.view events.old) (due_plan (E.OrderedIndex.view events.old) moment) result (E.OrderedIndex.view events.new) }
{
    let earliest = events.next(0);
    let Ok(event) = earliest.outcome else {
        return earliest;
    };
    if event.key > moment {
        return Answer::refused(Refusal::Later, earliest.frames, earliest.visits);
    }
    let removed = events.remove(event.key);
    joined(earliest, removed)
}
