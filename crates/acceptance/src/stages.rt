// The stages of an acceptance, over any dictionary. Each answers how many of its frames came out right.
ghost use Rattle.std.specs.Prelude.{◌≡◌, ◌+◌, ◌*◌, ◌%◌, ◌^◌, ◌≤◌, length};
ghost use Rattle.dictionary.specs.Pairs.{raised};
ghost use Rattle.acceptance.specs.Nodes.{factor, node_of, links_of};
ghost use Rattle.acceptance.specs.Stages.{Counted, Filled, Cleared, right};

use dictionary::Dictionary;

// As many pairs as a module is sold for.
pub const PAIRS: u32 = 768;

// The inverse, modulo 2^64, of the factor by which the makes spread their nodes: it chooses products.
const INVERSE: u64 = 0xF1DE_83E1_9937_733D;

// Nodes whose products share 24 homes among the 768 of them, the worst that a caller can do.
pub fn node(i: u32) -> u64
    ensures value { result ≡ node_of i }
    ensures product { result * factor % 2 ^ 64 ≡ i % 24 * 2 ^ 59 + i + 1 }
{
    let home = (i % 24) as u64;
    ((home << 59) + i as u64 + 1).wrapping_mul(INVERSE)
}

// The links that the i-th node is given in a round.
pub fn links(i: u32, round: u16) -> (u16, u16)
    ensures { result ≡ links_of i round }
{
    let low = (i % 0x1_0000) as u16;
    (low.wrapping_add(round), low.wrapping_mul(7) ^ round)
}

// Takes a step at each number below `count`: how many times it answers yes.
fn how_many<F: FnMut(u32) -> bool>(count: u32, step: &mut F) -> u32
    requires { F.IsAlwaysCallable step.old }
    ensures few { result ≤ count }
    ensures counted { Counted F.step step.old count result step.new }
{
    let mut times = 0;
    for i in 0..count {
        if step(i) {
            times += 1;
        }
    }
    times
}

// Puts the first `count` nodes: how many were accepted.
pub fn fill<D: Dictionary>(store: &mut D, count: u32, round: u16) -> u32
    ensures few { result ≤ count }
    ensures filled { Filled (D.Dictionary.room store.old) round (D.Dictionary.pairs store.old) (length (D.Dictionary.nodes store.old)) count result (D.Dictionary.pairs store.new) (length (D.Dictionary.nodes store.new)) }
    ensures tally { D.Dictionary.frames store.new ≡ raised (D.Dictionary.frames store.old) count }
    ensures room { D.Dictionary.room store.new ≡ D.Dictionary.room store.old }
{
    let mut accepted = |i| {
        let (low, high) = links(i, round);
        store.put(node(i), low, high).is_ok()
    };
    how_many(count, &mut accepted)
}

// Gets the first `count` nodes: how many had the links of a round.
pub fn read_back<D: Dictionary>(store: &mut D, count: u32, round: u16) -> u32
    ensures few { result ≤ count }
    ensures right { result ≡ right (D.Dictionary.pairs store.old) round count }
    ensures pairs { D.Dictionary.pairs store.new ≡ D.Dictionary.pairs store.old }
    ensures held { length (D.Dictionary.nodes store.new) ≡ length (D.Dictionary.nodes store.old) }
    ensures tally { D.Dictionary.frames store.new ≡ raised (D.Dictionary.frames store.old) count }
    ensures room { D.Dictionary.room store.new ≡ D.Dictionary.room store.old }
{
    let mut right = |i| store.get(node(i)) == Some(links(i, round));
    how_many(count, &mut right)
}

// Drops the first `count` nodes: how many had a pair.
pub fn clear<D: Dictionary>(store: &mut D, count: u32) -> u32
    ensures few { result ≤ count }
    ensures cleared { Cleared (D.Dictionary.pairs store.old) (length (D.Dictionary.nodes store.old)) count result (D.Dictionary.pairs store.new) (length (D.Dictionary.nodes store.new)) }
    ensures tally { D.Dictionary.frames store.new ≡ raised (D.Dictionary.frames store.old) count }
    ensures room { D.Dictionary.room store.new ≡ D.Dictionary.room store.old }
{
    let mut had = |i| store.drop_pair(node(i));
    how_many(count, &mut had)
}
