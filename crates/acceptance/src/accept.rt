// Accepts a new module: fills it, reads it back, replaces, sees the refusals, and drops every pair.
ghost use Rattle.std.specs.Prelude.{◌≡◌, ◌==◌, length};
ghost use Rattle.dictionary.specs.Pairs.{raised};
ghost use Rattle.acceptance.specs.Stages.{Tried};
ghost use Rattle.acceptance.specs.Reports.{stage, report_of, passes};

use crate::report::{Report, Stage};
use crate::stages::{PAIRS, clear, fill, links, node, read_back};
use dictionary::Dictionary;

// How many of two puts were refused, and whether the third was taken.
#[derive(Clone, Copy, Debug, PartialEq, Eq)]
pub struct Refusals {
    pub count: u32,
    pub kept: bool,
}

// A new node and node 0 are to be refused at the capacity, a node that has a pair is not.
pub fn refuse<D: Dictionary>(store: &mut D) -> Refusals
    ensures tried { Tried (D.Dictionary.room store.old) (D.Dictionary.pairs store.old) (length (D.Dictionary.nodes store.old)) result.count result.kept (D.Dictionary.pairs store.new) (length (D.Dictionary.nodes store.new)) }
    ensures tally { D.Dictionary.frames store.new ≡ raised (D.Dictionary.frames store.old) 3 }
    ensures room { D.Dictionary.room store.new ≡ D.Dictionary.room store.old }
{
    let (low, high) = links(PAIRS, 0);
    let over = store.put(node(PAIRS), low, high).is_err();
    let zero = store.put(0, low, high).is_err();
    let kept = store.put(node(0), low, high).is_ok();
    Refusals {
        count: over as u32 + zero as u32,
        kept,
    }
}

// The module after a stage.
pub fn look<D: Dictionary>(store: &D, count: u32) -> Stage
    ensures { result ≡ stage count (length (D.Dictionary.nodes store.now)) (D.Dictionary.frames store.now) }
{
    Stage {
        count,
        held: store.pairs_held(),
        tally: store.tally(),
    }
}

// The report on a new module of a make.
pub fn accept<D: Dictionary + Drop>() -> Report
    ensures report { result ≡ report_of result.capacity }
    ensures verdict { passes result ≡ (result.capacity == 768) }
{
    let mut store = D::new();
    let capacity = store.capacity();
    let taken = fill(&mut store, PAIRS, 0);
    let put = look(&store, taken);
    let right = read_back(&mut store, PAIRS, 0);
    let read = look(&store, right);
    let replaced = fill(&mut store, PAIRS / 3, 9);
    let renewed = look(&store, replaced);
    let new = read_back(&mut store, PAIRS / 3, 9);
    let reread = look(&store, new);
    let refusals = refuse(&mut store);
    let refused = look(&store, refusals.count);
    let gone = clear(&mut store, PAIRS);
    let dropped = look(&store, gone);
    let twice = clear(&mut store, PAIRS);
    let again = look(&store, twice);
    let rest = read_back(&mut store, PAIRS, 0);
    let left = look(&store, rest);
    Report {
        capacity,
        put,
        read,
        renewed,
        reread,
        refused,
        kept: refusals.kept,
        dropped,
        again,
        left,
    }
}
