// What a dictionary on a memory module means. Every make is proved against this trait, and all that
// is built on a dictionary is proved from it.
//
// A dictionary holds pairs: a node, a number above 0, with two links, low and high. Each get, put
// and drop is one frame on the bus and raises the tally by one, up to its top. The questions for the
// pairs held, the capacity and the tally are free.
#![tactic(auto)]

ghost use Rattle.std.specs.Prelude.{◌≡◌, ℕ, ◌^◌, ◌<◌, ◌≤◌, true, List, [], length, is_some, is_ok, if◌then◌else◌, Some, None};
ghost use Rattle.dictionary.specs.Pairs.{Pairs, with_pair, no_pairs, among, apart, raised, accepts, one_more, one_less};

// A put that the dictionary turned away: of node 0, or of a new node at the capacity.
#[derive(Clone, Copy, PartialEq, Eq, Debug)]
pub struct Refused;

pub trait Dictionary: Sized {
    // the links of each node
    ghost pairs: { Self → Pairs };

    // the nodes that have a pair, in some order
    ghost nodes: { Self → List ℕ };

    ghost room: { Self → ℕ };

    ghost frames: { Self → ℕ };

    fn new() -> Self
        ensures pairs { pairs result ≡ no_pairs }
        ensures nodes { nodes result ≡ [] }
        ensures tally { frames result ≡ 0 };

    // Both links of a node together, or nothing.
    fn get(&mut self, node: u64) -> Option<(u16, u16)>
        ensures value { result ≡ pairs self.old node }
        ensures pairs { pairs self.new ≡ pairs self.old }
        ensures held { length (nodes self.new) ≡ length (nodes self.old) }
        ensures room { room self.new ≡ room self.old }
        ensures tally { frames self.new ≡ raised (frames self.old) 1 };

    // Replaces the node's pair, or adds one.
    fn put(&mut self, node: u64, low: u16, high: u16) -> Result<(), Refused>
        ensures value { is_ok result ≡ accepts (pairs self.old) (length (nodes self.old)) (room self.old) node }
        ensures pairs { pairs self.new ≡ (if is_ok result then with_pair (pairs self.old) node (Some (low, high)) else pairs self.old) }
        ensures held { length (nodes self.new) ≡ (if is_ok result then one_more (pairs self.old node) (length (nodes self.old)) else length (nodes self.old)) }
        ensures room { room self.new ≡ room self.old }
        ensures tally { frames self.new ≡ raised (frames self.old) 1 };

    // Takes the node's pair away, and tells whether there was one.
    fn drop_pair(&mut self, node: u64) -> bool
        ensures value { result ≡ is_some (pairs self.old node) }
        ensures pairs { pairs self.new ≡ with_pair (pairs self.old) node None }
        ensures held { length (nodes self.new) ≡ one_less (pairs self.old node) (length (nodes self.old)) }
        ensures room { room self.new ≡ room self.old }
        ensures tally { frames self.new ≡ raised (frames self.old) 1 };

    fn pairs_held(&self) -> usize
        ensures { result ≡ length (nodes self.now) };

    fn capacity(&self) -> usize
        ensures { result ≡ room self.now };

    fn tally(&self) -> u64
        ensures { result ≡ frames self.now };

    // a node has at most one pair
    ghost once: { (d : Self) → apart (nodes d) ≡ true };

    ghost held: { (d : Self) (n : ℕ) → is_some (pairs d n) ≡ among n (nodes d) };

    ghost nowhere: { (d : Self) → pairs d 0 ≡ None };

    ghost within: { (d : Self) → length (nodes d) ≤ room d };

    ghost counts: { (d : Self) → frames d < 2 ^ 64 };
}
