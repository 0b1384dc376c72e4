// Where the pairs of a module stand: what a make decides, and all that it decides.
ghost use Rattle.std.specs.Prelude.{◌≡◌, ℕ, ◌+◌, ◌<◌, ◌≤◌, List, [], drop, slice_set, MatchOption, None as Nothing};
ghost use Rattle.dictionary.specs.Pairs.{no_pairs, with_pair};
ghost use Rattle.slots.specs.declared.Slot.{Slot as Slot_of};
ghost use Rattle.slots.specs.Slots.{node_at, links_of, pairs_of, nodes_of, held, Apart, Absent};

use crate::Slot;

// Rows of slots in which each node stands at most once. That a node is not 0 is asked for: a dictionary's
// calls take any number and refuse 0, so the module looks once.
pub trait Layout: Sized {
    // every slot, row after row
    ghost rows: { Self → List Slot_of };

    fn new() -> Self
        ensures pairs { pairs_of (rows result) ≡ no_pairs }
        ensures nodes { nodes_of (rows result) ≡ [] };

    fn slots(&self) -> &[Slot]
        ensures { result.now ≡ rows self.now };

    // The slot that holds `node`, if one does.
    fn find(&self, node: u64) -> Option<usize>
        requires some { 0 < node }
        requires few { held (rows self.now) ≤ 768 }
        ensures { MatchOption result (Absent (rows self.now) node) (λ at. node_at (rows self.now) at ≡ node) };

    // Gives the node in the slot `at` new links.
    fn renew(&mut self, at: usize, new: Slot)
        requires some { 0 < new.node }
        requires same { node_at (rows self.old) at ≡ new.node }
        ensures { rows self.new ≡ slice_set (rows self.old) at new };

    // Puts in a new pair.
    fn insert(&mut self, new: Slot)
        requires some { 0 < new.node }
        requires absent { Absent (rows self.old) new.node }
        requires few { held (rows self.old) < 768 }
        ensures held { held (rows self.new) ≡ held (rows self.old) + 1 }
        ensures pairs { pairs_of (rows self.new) ≡ with_pair (pairs_of (rows self.old)) new.node (links_of new) };

    // Takes the pair in the slot `at` away.
    fn erase(&mut self, at: usize)
        requires some { 0 < node_at (rows self.old) at }
        requires few { held (rows self.old) ≤ 768 }
        ensures held { held (rows self.new) + 1 ≡ held (rows self.old) }
        ensures pairs { pairs_of (rows self.new) ≡ with_pair (pairs_of (rows self.old)) (node_at (rows self.old) at) Nothing };

    // no node stands twice
    ghost apart: { (l : Self) → Apart (rows l) };
}

// A layout whose last row takes the pairs that find no place in the others.
pub trait Overflow: Layout {
    // the slots of the other rows
    ghost homes: { ℕ };

    fn spilled(&self) -> usize
        ensures { result ≡ held (drop homes (Self.rows self.now)) };
}
