// The highest entry at or below a key. One function for it and next would take the side, the call's word
// and its walk as three arguments, and each clause by cases.
ghost use Rattle.std.specs.Prelude.{◌≡◌, is_none, []};
ghost use Rattle.ordered.specs.declared.calls.Call.TheVariants.{Last};
ghost use Rattle.inside.specs.Whole.{Does, limit_of, state_of};

use crate::admits::admits;
use crate::index::YFast;
use dictionary::Dictionary;
use key::Key;
use ordered::{Answer, Refusal};
use trie::locate;
use workings::near::last_from;

impl<K: Key, D: Dictionary> YFast<K, D> {
    pub fn last(&mut self, key: u64) -> Answer
        ensures does { Does (is_none self.old.inside) K.Key.width (limit_of self.old.inside) (state_of (D.Dictionary.pairs self.old.dictionary) (D.Dictionary.frames self.old.dictionary) self.old.inside) (Last key) [] (record { answer = result; places = [] }) (state_of (D.Dictionary.pairs self.new.dictionary) (D.Dictionary.frames self.new.dictionary) self.new.inside) }
        ensures inside { self.new.inside ≡ self.old.inside }
        ensures room { D.Dictionary.room self.new.dictionary ≡ D.Dictionary.room self.old.dictionary }
    {
        let Some(inside) = &self.inside else {
            return Answer::refused(Refusal::Shut, 0, 0);
        };
        if let Err(refusal) = admits::<K>(key, key) {
            return Answer::refused(refusal, 0, 0);
        }
        let grove = &inside.grove;
        let at = locate::<K, D>(&mut self.dictionary, &grove.table, key);
        let found = last_from(grove, at.number, key);
        Answer::new(found.entry.ok_or(Refusal::Nothing), at.frames, found.visits)
    }
}
