// What can be read from an index without a frame: all entries, how many they are and may be, and
// whether the index is shut. A shut index has no entry.
ghost use Rattle.std.specs.Prelude.{◌≡◌, is_none, ◌≤◌, length};
ghost use Rattle.inside.specs.Spans.{kept_in, over};
ghost use Rattle.inside.specs.Whole.{limit_of};

use crate::index::YFast;
use dictionary::Dictionary;
use entry::Entry;
use key::Key;
use workings::spans::write_span;

impl<K: Key, D: Dictionary> YFast<K, D> {
    pub fn is_shut(&self) -> bool
        ensures { result ≡ is_none self.now.inside }
    {
        self.inside.is_none()
    }

    pub fn limit(&self) -> usize
        ensures { result ≡ limit_of self.now.inside }
    {
        match &self.inside {
            Some(inside) => inside.limit as usize,
            None => 0,
        }
    }

    pub fn len(&self) -> usize
        ensures { result ≡ length (kept_in self.now.inside) }
    {
        match &self.inside {
            Some(inside) => inside.count as usize,
            None => 0,
        }
    }

    // Writes all entries in rising order into the first places; those after them stay.
    pub fn list(&self, places: &mut [Entry])
        requires { length (kept_in self.now.inside) ≤ length places.old }
        ensures { places.new ≡ over (kept_in self.now.inside) places.old }
    {
        if let Some(inside) = &self.inside {
            write_span(&inside.grove, 0, 0, u64::MAX, places);
        }
    }
}
