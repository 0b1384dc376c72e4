// What a test driver writes down of a module, stage by stage, and the verdict on it.
ghost use Rattle.std.specs.Prelude.{◌≡◌};
ghost use Rattle.acceptance.specs.Reports.{passes};

use std::fmt;

// How many frames of a stage came out right, and the module after it.
#[derive(Clone, Copy, Debug, PartialEq, Eq)]
pub struct Stage {
    pub count: u32,
    pub held: usize,
    pub tally: u64,
}

// Every stage of an acceptance, and whether a put of a node that had a pair was taken at the capacity.
#[derive(Clone, Copy, Debug, PartialEq, Eq)]
pub struct Report {
    pub capacity: usize,
    pub put: Stage,
    pub read: Stage,
    pub renewed: Stage,
    pub reread: Stage,
    pub refused: Stage,
    pub kept: bool,
    pub dropped: Stage,
    pub again: Stage,
    pub left: Stage,
}

impl Report {
    // Whether the module is as it is sold.
    pub fn is_right(&self) -> bool
        ensures { result ≡ passes self.now }
    {
        let full = self.put.count == 768 && self.read.count == 768;
        let renewed = self.renewed.count == 256 && self.reread.count == 256;
        let refused = self.refused.count == 2 && self.kept;
        let empty = self.dropped.count == 768 && self.again.count == 0;
        full && renewed && refused && empty && self.left.count == 0 && self.left.held == 0
    }
}

impl fmt::Display for Stage {
    fn fmt<W: fmt::Write>(&self, f: &mut fmt::Formatter<W>) -> fmt::Result {
        let (count, held, tally) = (self.count, self.held, self.tally);
        write!(f, "{count}; pairs held {held}, tally {tally}")
    }
}

impl fmt::Display for Report {
    fn fmt<W: fmt::Write>(&self, f: &mut fmt::Formatter<W>) -> fmt::Result {
        write!(f, "capacity {}", self.capacity)?;
        write!(f, "\n  pairs put: {}\n  read back: {}", self.put, self.read)?;
        write!(
            f,
            "\n  replaced: {}\n  read back replaced: {}",
            self.renewed, self.reread
        )?;
        write!(f, "\n  puts refused at the capacity: {}", self.refused)?;
        write!(
            f,
            "\n  dropped: {}\n  dropped again: {}",
            self.dropped, self.again
        )?;
        write!(f, "\n  read back after: {}", self.left)
    }
}
