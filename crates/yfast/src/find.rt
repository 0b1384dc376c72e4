// Looking up a key.
ghost use Rattle.std.specs.Prelude.{◌≡◌, is_none, []};
ghost use Rattle.ordered.specs.declared.calls.Call.TheVariants.{Find};
ghost use Rattle.inside.specs.Whole.{Does, limit_of, state_of};

use crate::admits::admits;
use crate::index::YFast;
use crate::look::{Look, look_up};
use dictionary::Dictionary;
use key::Key;
use ordered::{Answer, Refusal};

impl<K: Key, D: Dictionary> YFast<K, D> {
    pub fn find(&mut self, key: u64) -> Answer
        ensures does { Does (is_none self.old.inside) K.Key.width (limit_of self.old.inside) (state_of (D.Dictionary.pairs self.old.dictionary) (D.Dictionary.frames self.old.dictionary) self.old.inside) (Find key) [] (record { answer = result; places = [] }) (state_of (D.Dictionary.pairs self.new.dictionary) (D.Dictionary.frames self.new.dictionary) self.new.inside) }
        ensures inside { self.new.inside ≡ self.old.inside }
        ensures room { D.Dictionary.room self.new.dictionary ≡ D.Dictionary.room self.old.dictionary }
    {
        let Some(inside) = &self.inside else {
            return Answer::refused(Refusal::Shut, 0, 0);
        };
        if let Err(refusal) = admits::<K>(key, key) {
            return Answer::refused(refusal, 0, 0);
        }
        let Look { frames, found, .. } = look_up::<K, D>(&mut self.dictionary, inside, key);
        Answer::new(found.entry.ok_or(Refusal::Absent), frames, found.visits)
    }
}
