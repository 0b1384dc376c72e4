// The level search of an x-fast trie, over any lawful dictionary and for any kind of key.
//
// A key has one node at each level from 0, the root, to its width. A dictionary that holds the nodes
// of some keys holds the root, and with a node each one on the way to it: so the deepest node of a
// key that has a pair is found by halving the levels, and the frames are one for the root and one
// for each halving.
#![tactic(auto)]

ghost use Rattle.std.specs.Prelude.{◌≡◌, ◌+◌, ◌^◌, ◌<◌, ◌≤◌, true, length, Some};
ghost use Rattle.key.specs.Widths.{most};
ghost use Rattle.dictionary.specs.Pairs.{raised};
ghost use Rattle.levels.specs.Nodes.{node_at};
ghost use Rattle.levels.specs.Counts.{gets};
ghost use Rattle.levels.specs.Search.{held, Closed, Deepest};

use dictionary::Dictionary;
use key::Key;

// Where a search ended: the deepest level with a pair, its links, and the frames made.
#[derive(Clone, Copy, PartialEq, Eq, Debug)]
pub struct Found {
    pub level: u32,
    pub low: u16,
    pub high: u16,
    pub frames: u16,
}

// The node at a level of a key of `width` bits.
pub fn node_at(width: u32, bits: u64, level: u32) -> u64
    requires wide { width ≤ 60 }
    requires level { level ≤ width }
    requires below { bits < 2 ^ width }
    ensures { result ≡ node_at width bits level }
{
    (1u64 << level) + (bits >> (width - level))
}

// The search: `lo` has a pair, and `hi` has none or is past the last level.
pub fn search<K: Key, D: Dictionary>(d: &mut D, bits: u64) -> Found
    requires below { bits < 2 ^ K.Key.width }
    requires root { held (D.Dictionary.pairs d.old) K.Key.width bits 0 ≡ true }
    requires closed { Closed (held (D.Dictionary.pairs d.old) K.Key.width bits) K.Key.width }
    ensures deepest { Deepest (held (D.Dictionary.pairs d.old) K.Key.width bits) K.Key.width result.level }
    ensures links { D.Dictionary.pairs d.old (node_at K.Key.width bits result.level) ≡ Some (result.low, result.high) }
    ensures frames { result.frames ≡ 1 + gets (held (D.Dictionary.pairs d.old) K.Key.width bits) 0 (K.Key.width + 1) }
    ensures few { result.frames ≤ most K.Key.width }
    ensures tally { D.Dictionary.frames d.new ≡ raised (D.Dictionary.frames d.old) result.frames }
    ensures pairs { D.Dictionary.pairs d.new ≡ D.Dictionary.pairs d.old }
    ensures count { length (D.Dictionary.nodes d.new) ≡ length (D.Dictionary.nodes d.old) }
    ensures room { D.Dictionary.room d.new ≡ D.Dictionary.room d.old }
{
    let width = K::bit_width();
    let Some((mut low, mut high)) = d.get(1) else {
        return unreachable();
    };
    let mut lo: u32 = 0;
    let mut hi: u32 = width + 1;
    let mut frames: u16 = 1;
    // A halving, not a count of indices: a level's frame is a get of its own, so no search of a slice does it.
    while hi - lo > 1 {
        let mid = (lo + hi) / 2;
        let node = node_at(width, bits, mid);
        frames += 1;
        match d.get(node) {
            Some((l, h)) => {
                lo = mid;
                low = l;
                high = h;
            }
            None => {
                hi = mid;
            }
        }
    }
    Found {
        level: lo,
        low,
        high,
        frames,
    }
}
