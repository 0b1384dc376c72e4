// The cases worked out on the test track, run on both makes of modules: zones added to a split and
// removed to a merge. Every line shows what an index answered.
#![tactic(auto)]

ghost use Rattle.std.specs.Prelude.{◌≡◌, length, is_some};
ghost use Rattle.ordered.specs.Fitness.{fitness};
ghost use Rattle.ordered.specs.declared.refusal.Refusal.TheVariants.{Shut};
ghost use Rattle.ordered.specs.Answers.{no_of};
ghost use Rattle.tracks.specs.Track.{track, Driven};

use cuckoo::table::Cuckoo;
use dictionary::Dictionary;
use entry::Entry;
use key::kinds::Zone;
use ordered::{Answer, Call, Refusal};
use robin_hood::table::RobinHood;
use std::{fmt, io};
use yfast::run::run_new;

// Two finds on a new index, 21 adds with a split, a last and a next, and seven removes with a merge.
fn script() -> [Call; 32]
    ensures { result ≡ track }
{
    [
        Call::Find(48),
        Call::Find(0),
        Call::Add(1, 100),
        Call::Add(2, 101),
        Call::Add(3, 102),
        Call::Add(4, 103),
        Call::Add(5, 104),
        Call::Add(6, 105),
        Call::Add(7, 106),
        Call::Add(8, 107),
        Call::Add(9, 108),
        Call::Add(10, 109),
        Call::Add(11, 110),
        Call::Add(12, 111),
        Call::Add(13, 112),
        Call::Add(14, 113),
        Call::Add(15, 114),
        Call::Add(16, 115),
        Call::Add(17, 116),
        Call::Add(18, 117),
        Call::Add(19, 118),
        Call::Add(20, 119),
        Call::Add(21, 120),
        Call::Last(10),
        Call::Next(22),
        Call::Remove(1),
        Call::Remove(2),
        Call::Remove(3),
        Call::Remove(4),
        Call::Remove(5),
        Call::Remove(6),
        Call::Remove(7),
    ]
}

fn blank() -> Answer
    ensures { result ≡ no_of Shut 0 0 }
{
    Answer::refused(Refusal::Shut, 0, 0)
}

// What an index on the dictionary answers to the script.
fn drive<D: Dictionary + Drop>(dictionary: D) -> [Answer; 32]
    ensures { Driven (is_some (fitness 8 64 (D.Dictionary.room dictionary) (length (D.Dictionary.nodes dictionary)) (D.Dictionary.frames dictionary))) result }
{
    let calls = script();
    let mut answers = [blank(); 32];
    let mut places = [Entry { key: 0, note: 0 }; 4];
    let _index = run_new::<Zone, D>(64, dictionary, &calls, &mut answers, &mut places);
    answers
}

// The answers, a line each.
#[derive(Drop)]
struct Lines {
    answers: [Answer; 32],
}

impl fmt::Display for Lines {
    fn fmt<W: fmt::Write>(&self, f: &mut fmt::Formatter<W>) -> fmt::Result {
        for (turn, answer) in self.answers.iter().enumerate() {
            let frames = answer.frames;
            let rebuilding = answer.rebuilding.number();
            match answer.outcome {
                Ok(entry) => {
                    let key = entry.key;
                    write!(
                        f,
                        "\n  call {turn}: key {key}, frames {frames}, rebuilding {rebuilding}"
                    )?;
                }
                Err(refusal) => {
                    let number = refusal.number();
                    write!(f, "\n  call {turn}: refused by {number}, frames {frames}")?;
                }
            }
        }
        Ok(())
    }
}

fn main(rt: HostRuntime) -> io::Result<()> {
    let robin_hood = Lines {
        answers: drive(<RobinHood as Dictionary>::new()),
    };
    println!(rt; "Robin Hood:{robin_hood}")?;
    let cuckoo = Lines {
        answers: drive(<Cuckoo as Dictionary>::new()),
    };
    println!(rt; "Cuckoo:{cuckoo}")
}
