// The entries of a span of keys, both ends included, written out in rising order, into places that are
// the caller's: how far they are filled is the answer, since no vector of ours could hold them.

ghost use Rattle.std.specs.Prelude.{◌≡◌, ◌+◌, ◌≤◌, length};
ghost use Rattle.entry.specs.Lists.{between};
ghost use Rattle.trees.specs.Pools.{Standing, entries_at};
ghost use Rattle.trees.specs.Answers.{laid};

use crate::{NONE, Node};
use entry::Entry;

// Writes the entries with keys from first to second, in rising order, into the places from start on,
// and answers the place after them.
pub fn span(
    nodes: &[Node],
    root: u16,
    first: u64,
    second: u64,
    out: &mut [Entry],
    start: usize,
) -> usize
    requires tree { Standing nodes.now root }
    requires room { start + length (between first second (entries_at nodes.now root)) ≤ length out.old }
    ensures places { out.new ≡ laid out.old start (between first second (entries_at nodes.now root)) }
    ensures end { result ≡ start + length (between first second (entries_at nodes.now root)) }
{
    if root == NONE {
        return start;
    }
    let here = nodes[root as usize];
    if here.key < first {
        return span(nodes, here.right, first, second, out, start);
    }
    if second < here.key {
        return span(nodes, here.left, first, second, out, start);
    }
    let middle = span(nodes, here.left, first, second, out, start);
    out[middle] = here.entry();
    span(nodes, here.right, first, second, out, middle + 1)
}
