// A grove begins.
ghost use Rattle.std.specs.Prelude.{◌≡◌};
ghost use Rattle.buckets.specs.Tables.{Fresh};

use crate::Grove;
use avl::Pool;
use buckets::Table;

impl Grove {
    // The first bucket has no tree yet, and all nodes are free.
    pub fn new(table: Table) -> Grove
        requires { Fresh table }
        ensures { result.table ≡ table }
    {
        let pool = Pool::new();
        Grove { table, pool }
    }
}
