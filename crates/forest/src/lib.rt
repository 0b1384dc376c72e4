// The trees of all buckets in one pool of nodes: what an add, a remove, a split and a merge do to them.
//
// Each bucket of the table has a tree that stands, of as many entries as the table says, and each of the
// pool's 512 nodes is in one of these trees, or free (`forest`). Entries are never copied from node to
// node: a split and a merge build new trees of the same nodes.
#![tactic(auto)]

ghost use Rattle.forest.specs.Forests.{Forest};
ghost use Rattle.forest.specs.Props.{Forest-prop};

mod grow;
mod halve;
mod plant;
mod shrink;
mod unite;

use avl::Pool;
use buckets::Table;

// The buckets with their trees.
#[derive(Drop)]
pub struct Grove {
    pub table: Table,
    pub pool: Pool,
    ghost forest: { Forest table pool } by { Forest-prop table pool },
}
