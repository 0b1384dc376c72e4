// What an ordered index is: its view, and what each call answers and does to it. A book rests on this
// trait alone and never sees a bucket. Whatever an index relies on stands in its own type, so no call
// asks anything of its caller.
ghost use Rattle.std.specs.Prelude.{◌≡◌, ◌≤◌, [], ◌++◌, length, drop};
ghost use Rattle.ordered.specs.Meaning.{View, Stepped, Lawful};
ghost use Rattle.ordered.specs.declared.calls.Call.TheVariants.{Add, Remove, Find, Next, Last, Range};

use crate::calls::Answer;
use entry::Entry;
use key::Key;

pub trait OrderedIndex<K: Key>: Sized {
    ghost view: { Self → View };

    fn add(&mut self, key: u64, note: u64) -> Answer
        ensures { Stepped (view self.old) (Add key note) [] result [] (view self.new) };

    fn remove(&mut self, key: u64) -> Answer
        ensures { Stepped (view self.old) (Remove key) [] result [] (view self.new) };

    fn find(&mut self, key: u64) -> Answer
        ensures { Stepped (view self.old) (Find key) [] result [] (view self.new) };

    // The lowest entry at or above a key.
    fn next(&mut self, key: u64) -> Answer
        ensures { Stepped (view self.old) (Next key) [] result [] (view self.new) };

    // The highest entry at or below a key.
    fn last(&mut self, key: u64) -> Answer
        ensures { Stepped (view self.old) (Last key) [] result [] (view self.new) };

    // The entries from a first to a second key, both included, into the caller's places.
    fn range(&mut self, first: u64, second: u64, places: &mut [Entry]) -> Answer
        ensures { Stepped (view self.old) (Range first second) places.old result places.new (view self.new) };

    fn is_shut(&self) -> bool
        ensures { result ≡ (view self.now).shut };

    fn len(&self) -> usize
        ensures { result ≡ length (view self.now).entries };

    fn limit(&self) -> usize
        ensures { result ≡ (view self.now).limit };

    // Writes all entries in rising order, without a frame; places after them stay.
    fn list(&self, places: &mut [Entry])
        requires { length (view self.now).entries ≤ length places.old }
        ensures { places.new ≡ (view self.now).entries ++ drop (length (view self.now).entries) places.old };

    ghost lawful: { (s : Self) → Lawful K.Key.width (view s) };
}
