// The walk of a put of a new node. It relies on Spread and Apart, and on an empty slot to end at.
ghost use Rattle.std.specs.Prelude.{◌≡◌, ◌+◌, ◌<◌};
ghost use Rattle.dictionary.specs.Pairs.{with_pair};
ghost use Rattle.robin_hood.specs.Homes.{home_of};
ghost use Rattle.robin_hood.specs.Layout.{Settles};
ghost use Rattle.slots.specs.Slots.{links_of, pairs_of, held, Absent};

use crate::home::{SLOTS, home, rank};
use crate::ring::Ring;
use slots::Slot;

// Puts in a new pair, from its home on. A resident of smaller displacement changes places with the
// pair carried.
pub(crate) fn insert(ring: &mut Ring, new: Slot)
    requires some { 0 < new.node }
    requires absent { Absent ring.old.slots new.node }
    requires room { held ring.old.slots < 1024 }
    ensures settles { Settles ring.old.slots (home_of new.node) new ring.new.slots }
    ensures held { held ring.new.slots ≡ held ring.old.slots + 1 }
    ensures pairs { pairs_of ring.new.slots ≡ with_pair (pairs_of ring.old.slots) new.node (links_of new) }
{
    let start = home(new.node);
    let mut carried = new;
    // by steps, as Settles counts: the two ranges of slots up to the end and from 0 on are one walk
    for step in 0..SLOTS {
        let at = (start + step) % SLOTS;
        let resident = ring.slots[at];
        if resident.node == 0 {
            ring.slots[at] = carried;
            return;
        }
        if rank(resident.node, at) < rank(carried.node, at) {
            ring.slots[at] = carried;
            carried = resident;
        }
    }
    unreachable()
}
