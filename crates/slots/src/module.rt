// A memory module as a dictionary, whatever its layout. At most 768 slots are taken and counted, and
// the tally fits its type: what every call relies on and keeps.
ghost use Rattle.std.specs.Prelude.{◌≡◌, ◌^◌, ◌<◌, ◌≤◌, drop, refl, MatchOption};
ghost use Rattle.slots.specs.Slots.{node_at, pairs_of, nodes_of, held, Absent};
ghost use Rattle.slots.specs.Laws.{apart_nodes, pairs_among, pairs_zero};
ghost use Rattle.std.proofs.Common.{rules, arith};

use crate::layout::{Layout, Overflow};
use crate::{Slot, raise};
use dictionary::{Dictionary, Refused};

const CAPACITY: u16 = 768;

#[derive(Drop)]
pub struct Module<L: Layout> {
    layout: L,
    count: u16,
    tally: u64,
    ghost counted: { held (L.rows layout) ≡ count },
    ghost few: { count ≤ 768 },
    ghost counts: { tally < 2 ^ 64 },
}

impl<L: Layout> Module<L> {
    pub fn slots(&self) -> &[Slot]
        ensures { result.now ≡ L.rows self.now.layout }
    {
        self.layout.slots()
    }

    // The slot that holds `node`, if one does. Node 0 has none.
    fn seat(&self, node: u64) -> Option<usize>
        ensures { MatchOption result (0 < node → Absent (L.rows self.now.layout) node) (λ at. (0 < node) × (node_at (L.rows self.now.layout) at ≡ node)) }
    {
        if node == 0 {
            return None;
        }
        self.layout.find(node)
    }
}

impl<L: Overflow> Module<L> {
    // How many pairs stand in the overflow row.
    pub fn spilled(&self) -> usize
        ensures { result ≡ held (drop L.homes (L.rows self.now.layout)) }
    {
        self.layout.spilled()
    }
}

impl<L: Layout> Dictionary for Module<L> {
    ghost pairs = { λ d. pairs_of (L.rows d.layout) };

    ghost nodes = { λ d. nodes_of (L.rows d.layout) };

    ghost room = { λ _. 768 };

    ghost frames = { λ d. d.tally };

    ghost once = { λ d. apart_nodes (L.rows d.layout) (L.apart d.layout) };

    ghost held = { λ d n. pairs_among (L.rows d.layout) n };

    ghost nowhere = { λ d. pairs_zero (L.rows d.layout) 0 refl };

    ghost within = { Prim.search rules };

    ghost counts = { Prim.search rules };

    fn new() -> Self {
        Module {
            layout: L::new(),
            count: 0,
            tally: 0,
        }
    }

    fn get(&mut self, node: u64) -> Option<(u16, u16)> {
        raise(&mut self.tally);
        let at = self.seat(node)?;
        let slot = self.slots()[at];
        Some((slot.low, slot.high))
    }

    fn put(&mut self, node: u64, low: u16, high: u16) -> Result<(), Refused> {
        raise(&mut self.tally);
        let pair = Slot { node, low, high };
        match self.seat(node) {
            Some(at) => self.layout.renew(at, pair),
            None if node == 0 || self.count >= CAPACITY => return Err(Refused),
            None => {
                self.layout.insert(pair);
                self.count += 1;
            }
        }
        Ok(())
    }

    fn drop_pair(&mut self, node: u64) -> bool {
        raise(&mut self.tally);
        let Some(at) = self.seat(node) else {
            return false;
        };
        self.layout.erase(at);
        self.count -= 1;
        true
    }

    fn pairs_held(&self) -> usize {
        self.count as usize
    }

    fn capacity(&self) -> usize {
        CAPACITY as usize
    }

    fn tally(&self) -> u64 {
        self.tally
    }
}
