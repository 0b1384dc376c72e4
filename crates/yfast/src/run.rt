// Calls one after another: on an index, and on a new one. The law over runs stands on the second, which
// asks nothing of its caller.
ghost use Rattle.std.specs.Prelude.{◌≡◌, is_none, length, take, drop, is_some};
ghost use Rattle.ordered.specs.Fitness.{fitness};
ghost use Rattle.inside.specs.Whole.{limit_of, state_of};
ghost use Rattle.inside.specs.Runs.{made, Ran, RanNew};

use crate::index::YFast;
use dictionary::Dictionary;
use entry::Entry;
use key::Key;
use ordered::{Answer, Call};

impl<K: Key, D: Dictionary> YFast<K, D> {
    // Makes the calls while there are places for their answers, and tells how many it made.
    pub fn run(&mut self, calls: &[Call], answers: &mut [Answer], places: &mut [Entry]) -> usize
        ensures made { result ≡ made calls.now answers.old }
        ensures ran { Ran (is_none self.old.inside) K.Key.width (limit_of self.old.inside) (state_of (D.Dictionary.pairs self.old.dictionary) (D.Dictionary.frames self.old.dictionary) self.old.inside) places.old (take result calls.now) (take result answers.new) (state_of (D.Dictionary.pairs self.new.dictionary) (D.Dictionary.frames self.new.dictionary) self.new.inside) places.new }
        ensures rest { drop result answers.new ≡ drop result answers.old }
        ensures limit { limit_of self.new.inside ≡ limit_of self.old.inside }
        ensures shut { is_none self.new.inside ≡ is_none self.old.inside }
        ensures room { D.Dictionary.room self.new.dictionary ≡ D.Dictionary.room self.old.dictionary }
    {
        let number = calls.len().min(answers.len());
        // by index: nothing is known of an element written through an adapter of `iter_mut`
        for (i, call) in calls[..number].iter().enumerate() {
            answers[i] = self.call(*call, places);
        }
        number
    }
}

// Makes an index and the calls on it, while there are places for their answers.
pub fn run_new<K: Key, D: Dictionary>(
    limit: u32,
    dictionary: D,
    calls: &[Call],
    answers: &mut [Answer],
    places: &mut [Entry],
) -> YFast<K, D>
    ensures shut { is_none result.inside ≡ is_some (fitness K.Key.width limit (D.Dictionary.room dictionary) (length (D.Dictionary.nodes dictionary)) (D.Dictionary.frames dictionary)) }
    ensures ran { RanNew (is_none result.inside) (record { width = K.Key.width; bits = K.Key.bits; key = K.Key.key; before = K.Key.before }) limit (D.Dictionary.pairs dictionary) (D.Dictionary.frames dictionary) places.old (take (made calls.now answers.old) calls.now) (take (made calls.now answers.old) answers.new) (state_of (D.Dictionary.pairs result.dictionary) (D.Dictionary.frames result.dictionary) result.inside) places.new }
    ensures rest { drop (made calls.now answers.old) answers.new ≡ drop (made calls.now answers.old) answers.old }
{
    let mut index = YFast::<K, D>::new(limit, dictionary);
    index.run(calls, answers, places);
    index
}
