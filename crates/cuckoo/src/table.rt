// The dictionary: a module whose slots form two rows and an overflow row.
ghost use Rattle.std.specs.Prelude.{◌≡◌};

use crate::erase::erase;
use crate::find::find;
use crate::insert::insert;
use crate::two_rows::TwoRows;
use slots::layout::{Layout, Overflow};
use slots::module::Module;
use slots::{EMPTY, Slot};

pub type Cuckoo = Module<TwoRows>;

impl Layout for TwoRows {
    ghost rows = { λ l. l.slots };

    ghost apart = { λ l. l.apart };

    fn new() -> Self {
        TwoRows {
            slots: [EMPTY; 1792],
            spilled: 0,
        }
    }

    fn slots(&self) -> &[Slot] {
        &self.slots
    }

    fn find(&self, node: u64) -> Option<usize> {
        find(self, node)
    }

    // by each layout, which keeps its own facts of the slots
    fn renew(&mut self, at: usize, new: Slot) {
        self.slots[at] = new;
    }

    fn insert(&mut self, new: Slot) {
        insert(self, new);
    }

    fn erase(&mut self, at: usize) {
        erase(self, at);
    }
}

impl Overflow for TwoRows {
    ghost homes = { 1024 };

    fn spilled(&self) -> usize {
        self.spilled as usize
    }
}

#[cfg(test)]
mod tests {
    use super::*;
    use dictionary::{Dictionary, Refused};

    // Four nodes whose homes are slot 316 in row one and slot 901 in row two: two of them spill.
    fn crowded() -> Cuckoo {
        let mut table: Cuckoo = <Cuckoo as Dictionary>::new();
        for node in [1, 223_102, 264_069, 487_170] {
            let _ = table.put(node, 7, 8);
        }
        table
    }

    fn node_at(table: &Cuckoo, at: usize) -> Option<u64> {
        table.slots().get(at).map(|slot| slot.node)
    }

    #[test]
    fn a_pair_spills_after_32_pushes(rt: HostRuntime) {
        let table = crowded();
        assert_eq!(rt; node_at(&table, 316), Some(487_170));
        assert_eq!(rt; node_at(&table, 901), Some(264_069));
        assert_eq!(rt; node_at(&table, 1024), Some(1));
        assert_eq!(rt; node_at(&table, 1025), Some(223_102));
        assert_eq!(rt; table.spilled(), 2);
    }

    #[test]
    fn a_drop_keeps_the_overflow_row_packed(rt: HostRuntime) {
        let mut table = crowded();
        assert!(rt; table.drop_pair(1));
        assert_eq!(rt; node_at(&table, 1024), Some(223_102));
        assert_eq!(rt; node_at(&table, 1025), Some(0));
        assert_eq!(rt; table.get(223_102), Some((7, 8)));
        assert_eq!(rt; table.spilled(), 1);
    }

    #[test]
    fn node_0_is_refused(rt: HostRuntime) {
        let mut table: Cuckoo = <Cuckoo as Dictionary>::new();
        assert_eq!(rt; table.put(0, 1, 2), Err(Refused));
        assert_eq!(rt; table.get(0), None);
        assert!(rt; !table.drop_pair(0));
        assert_eq!(rt; table.tally(), 3);
    }
}
