// An entry goes out of the index.
ghost use Rattle.std.specs.Prelude.{◌≡◌, is_none, []};
ghost use Rattle.ordered.specs.declared.calls.Call.TheVariants.{Remove};
ghost use Rattle.inside.specs.Whole.{Does, limit_of, state_of};

use crate::admits::admits;
use crate::index::YFast;
use crate::look::look_up;
use dictionary::Dictionary;
use key::Key;
use ordered::{Answer, Refusal};
use workings::leave::leave;

impl<K: Key, D: Dictionary> YFast<K, D> {
    pub fn remove(&mut self, key: u64) -> Answer
        ensures does { Does (is_none self.old.inside) K.Key.width (limit_of self.old.inside) (state_of (D.Dictionary.pairs self.old.dictionary) (D.Dictionary.frames self.old.dictionary) self.old.inside) (Remove key) [] (record { answer = result; places = [] }) (state_of (D.Dictionary.pairs self.new.dictionary) (D.Dictionary.frames self.new.dictionary) self.new.inside) }
        ensures limit { limit_of self.new.inside ≡ limit_of self.old.inside }
        ensures shut { is_none self.new.inside ≡ is_none self.old.inside }
        ensures room { D.Dictionary.room self.new.dictionary ≡ D.Dictionary.room self.old.dictionary }
    {
        let Some(inside) = &mut self.inside else {
            return Answer::refused(Refusal::Shut, 0, 0);
        };
        if let Err(refusal) = admits::<K>(key, key) {
            return Answer::refused(refusal, 0, 0);
        }
        let look = look_up::<K, D>(&mut self.dictionary, inside, key);
        let Some(entry) = look.found.entry else {
            return Answer::refused(Refusal::Absent, look.frames, look.found.visits);
        };
        let change = leave::<K, D>(&mut self.dictionary, inside, look.number, key);
        Answer {
            outcome: Ok(entry),
            number: 0,
            frames: look.frames + change.frames,
            visits: look.found.visits,
            rebuilding: change.rebuilding,
        }
    }
}
