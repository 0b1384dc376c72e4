// Any call, by its word.
ghost use Rattle.std.specs.Prelude.{◌≡◌, is_none};
ghost use Rattle.inside.specs.Whole.{Does, limit_of, state_of};

use crate::index::YFast;
use dictionary::Dictionary;
use entry::Entry;
use key::Key;
use ordered::{Answer, Call};

impl<K: Key, D: Dictionary> YFast<K, D> {
    pub(crate) fn call(&mut self, call: Call, places: &mut [Entry]) -> Answer
        ensures does { Does (is_none self.old.inside) K.Key.width (limit_of self.old.inside) (state_of (D.Dictionary.pairs self.old.dictionary) (D.Dictionary.frames self.old.dictionary) self.old.inside) call places.old (record { answer = result; places = places.new }) (state_of (D.Dictionary.pairs self.new.dictionary) (D.Dictionary.frames self.new.dictionary) self.new.inside) }
        ensures limit { limit_of self.new.inside ≡ limit_of self.old.inside }
        ensures shut { is_none self.new.inside ≡ is_none self.old.inside }
        ensures room { D.Dictionary.room self.new.dictionary ≡ D.Dictionary.room self.old.dictionary }
    {
        match call {
            Call::Add(key, note) => self.add(key, note),
            Call::Remove(key) => self.remove(key),
            Call::Find(key) => self.find(key),
            Call::Next(key) => self.next(key),
            Call::Last(key) => self.last(key),
            Call::Range(first, second) => self.range(first, second, places),
        }
    }
}
