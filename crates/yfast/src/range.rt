// The entries from a first to a second key, both included. They are counted before the first of them
// is written, so a refusal leaves the places be.
ghost use Rattle.std.specs.Prelude.{◌≡◌, is_none};
ghost use Rattle.ordered.specs.declared.calls.Call.TheVariants.{Range};
ghost use Rattle.inside.specs.Whole.{Does, limit_of, state_of};

use crate::admits::admits;
use crate::index::YFast;
use dictionary::Dictionary;
use entry::Entry;
use key::Key;
use ordered::{Answer, Rebuilding, Refusal};
use trie::locate;
use workings::spans::{count_span, write_span};

impl<K: Key, D: Dictionary> YFast<K, D> {
    pub fn range(&mut self, first: u64, second: u64, places: &mut [Entry]) -> Answer
        ensures does { Does (is_none self.old.inside) K.Key.width (limit_of self.old.inside) (state_of (D.Dictionary.pairs self.old.dictionary) (D.Dictionary.frames self.old.dictionary) self.old.inside) (Range first second) places.old (record { answer = result; places = places.new }) (state_of (D.Dictionary.pairs self.new.dictionary) (D.Dictionary.frames self.new.dictionary) self.new.inside) }
        ensures inside { self.new.inside ≡ self.old.inside }
        ensures room { D.Dictionary.room self.new.dictionary ≡ D.Dictionary.room self.old.dictionary }
    {
        let Some(inside) = &self.inside else {
            return Answer::refused(Refusal::Shut, 0, 0);
        };
        if let Err(refusal) = admits::<K>(first, second) {
            return Answer::refused(refusal, 0, 0);
        }
        let grove = &inside.grove;
        let at = locate::<K, D>(&mut self.dictionary, &grove.table, first);
        let number = count_span(grove, at.number, first, second);
        if number > places.len() {
            return Answer::refused(Refusal::Room, at.frames, 0);
        }
        write_span(grove, at.number, first, second, places);
        Answer {
            outcome: Ok(Entry { key: 0, note: 0 }),
            number: number as u16,
            frames: at.frames,
            visits: 0,
            rebuilding: Rebuilding::Unchanged,
        }
    }
}
