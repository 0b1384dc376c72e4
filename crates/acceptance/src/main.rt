// Accepts memory modules as a test driver would: fills each, reads it back, replaces, sees the
// refusals, drops every pair, and prints each stage and a verdict. The stages know only what a
// dictionary means.
#![tactic(auto)]

mod accept;
mod report;
mod stages;

use accept::accept;
use cuckoo::table::Cuckoo;
use dictionary::Dictionary;
use report::Report;
use robin_hood::table::RobinHood;
use stages::{PAIRS, fill};
use std::{fmt, io};

// A report under a make's name, with the verdict.
#[derive(Drop)]
struct Named<'a> {
    name: &'a str,
    report: Report,
}

impl<'a> fmt::Display for Named<'a> {
    fn fmt<W: fmt::Write>(&self, f: &mut fmt::Formatter<W>) -> fmt::Result {
        let verdict = if self.report.is_right() {
            "accepted"
        } else {
            "REFUSED"
        };
        let name = self.name;
        write!(f, "{name}: {}\n{name}: {verdict}", self.report)
    }
}

fn main(rt: HostRuntime) -> io::Result<()> {
    let robin_hood = Named {
        name: "Robin Hood",
        report: accept::<RobinHood>(),
    };
    println!(rt; "{robin_hood}")?;
    let cuckoo = Named {
        name: "Cuckoo",
        report: accept::<Cuckoo>(),
    };
    println!(rt; "{cuckoo}")?;
    // how many of the crowded pairs a cuckoo module cannot seat at a home
    let mut crowded: Cuckoo = <Cuckoo as Dictionary>::new();
    let taken = fill(&mut crowded, PAIRS, 0);
    let spilled = crowded.spilled();
    println!(rt; "Cuckoo: of {taken} pairs {spilled} went to the overflow row")
}
