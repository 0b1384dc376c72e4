// The y-fast index is an ordered index: what the trait asks of each call follows from what the index's own
// calls promise. A shut index has no entry, and its limit reads 0.
ghost use Rattle.inside.specs.Views.{seen_as};
ghost use Rattle.inside.proofs.Seen.{lawful_as};

use crate::index::YFast;
use dictionary::Dictionary;
use entry::Entry;
use key::Key;
use ordered::Answer;
use ordered::index::OrderedIndex;

impl<K: Key, D: Dictionary> OrderedIndex<K> for YFast<K, D> {
    ghost view = { λ s. seen_as K.Key.width (D.Dictionary.pairs s.dictionary) (D.Dictionary.frames s.dictionary) s.inside };

    ghost lawful = { λ s.
        let d = D.Dictionary in
        lawful_as K.Key.width (d.pairs s.dictionary) (d.room s.dictionary) (d.frames s.dictionary) s.inside (D.Dictionary.counts s.dictionary) s.sound };

    fn add(&mut self, key: u64, note: u64) -> Answer {
        YFast::add(self, key, note)
    }

    fn remove(&mut self, key: u64) -> Answer {
        YFast::remove(self, key)
    }

    fn find(&mut self, key: u64) -> Answer {
        YFast::find(self, key)
    }

    fn next(&mut self, key: u64) -> Answer {
        YFast::next(self, key)
    }

    fn last(&mut self, key: u64) -> Answer {
        YFast::last(self, key)
    }

    fn range(&mut self, first: u64, second: u64, places: &mut [Entry]) -> Answer {
        YFast::range(self, first, second, places)
    }

    fn is_shut(&self) -> bool {
        YFast::is_shut(self)
    }

    fn len(&self) -> usize {
        YFast::len(self)
    }

    fn limit(&self) -> usize {
        YFast::limit(self)
    }

    fn list(&self, places: &mut [Entry]) {
        YFast::list(self, places);
    }
}
