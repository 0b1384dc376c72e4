// The dictionary: a module whose slots form a ring.
use crate::erase::erase;
use crate::find::find;
use crate::home::SLOTS;
use crate::insert::insert;
use crate::ring::Ring;
use slots::layout::Layout;
use slots::module::Module;
use slots::{EMPTY, Slot};

pub type RobinHood = Module<Ring>;

impl Layout for Ring {
    ghost rows = { λ r. r.slots };

    ghost apart = { λ r. r.apart };

    fn new() -> Self {
        Ring {
            slots: [EMPTY; SLOTS],
        }
    }

    fn slots(&self) -> &[Slot] {
        &self.slots
    }

    fn find(&self, node: u64) -> Option<usize> {
        find(self, node).ok()
    }

    // by each layout, which keeps its own facts of the slots
    fn renew(&mut self, at: usize, new: Slot) {
        self.slots[at] = new;
    }

    fn insert(&mut self, new: Slot) {
        insert(self, new);
    }

    fn erase(&mut self, at: usize) {
        erase(self, at);
    }
}

#[cfg(test)]
mod tests {
    use super::*;
    use dictionary::{Dictionary, Refused};

    // 377 and 1364 have home 1,022, the nodes 987, 1974 and 2584 have home 1,023, and 610 home 0.
    fn crowded() -> RobinHood {
        let mut table: RobinHood = <RobinHood as Dictionary>::new();
        for node in [987, 1974, 2584, 610, 377, 1364] {
            let _ = table.put(node, 7, 8);
        }
        table
    }

    fn node_at(table: &RobinHood, at: usize) -> Option<u64> {
        table.slots().get(at).map(|slot| slot.node)
    }

    #[test]
    fn a_put_walks_round_the_end(rt: HostRuntime) {
        let table = crowded();
        assert_eq!(rt; node_at(&table, 1022), Some(377));
        assert_eq!(rt; node_at(&table, 1023), Some(1364));
        assert_eq!(rt; node_at(&table, 0), Some(1974));
        assert_eq!(rt; node_at(&table, 1), Some(2584));
        assert_eq!(rt; node_at(&table, 2), Some(987));
        assert_eq!(rt; node_at(&table, 3), Some(610));
    }

    #[test]
    fn a_drop_moves_the_followers_back(rt: HostRuntime) {
        let mut table = crowded();
        assert!(rt; table.drop_pair(377));
        assert_eq!(rt; node_at(&table, 1022), Some(1364));
        assert_eq!(rt; node_at(&table, 1023), Some(1974));
        assert_eq!(rt; node_at(&table, 2), Some(610));
        assert_eq!(rt; node_at(&table, 3), Some(0));
        assert_eq!(rt; table.get(610), Some((7, 8)));
        assert_eq!(rt; table.pairs_held(), 5);
    }

    #[test]
    fn node_0_is_refused(rt: HostRuntime) {
        let mut table: RobinHood = <RobinHood as Dictionary>::new();
        assert_eq!(rt; table.put(0, 1, 2), Err(Refused));
        assert_eq!(rt; table.get(0), None);
        assert!(rt; !table.drop_pair(0));
        assert_eq!(rt; table.tally(), 3);
    }
}
