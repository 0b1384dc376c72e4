// The rules of the buckets, and what follows from them over every run of calls. A lemma crate: each
// function names a law, and the code of an index rests on the same definitions.
#![tactic(auto)]

ghost use Rattle.rules.specs.Laws.{BucketsKeep, RebuildingsRare, FramesBounded, CallsBounded, NewRuns, AsAList, AsOwnList, SearchFinds};
ghost use Rattle.rules.specs.Tracks.{Tracks};

use key::Key;

// Sizes, order and number of the buckets after every run.
pub fn buckets_keep()
    ensures { BucketsKeep }
{}

// Changes pay for the rebuildings, from any sound buckets on.
pub fn rebuildings_rare()
    ensures { RebuildingsRare }
{}

// Calls and changes pay for the frames, from any sound buckets on.
pub fn frames_bounded()
    ensures { FramesBounded }
{}

// The frames of a single call, and that without a rebuilding the representatives stand.
pub fn calls_bounded()
    ensures { CallsBounded }
{}

// The two bounds on a new index.
pub fn new_runs()
    ensures { NewRuns }
{}

// The buckets answer as the sorted list of their entries.
pub fn as_a_list()
    ensures { AsAList }
{}

// A new index answers as the sorted list of the kind's own keys.
pub fn as_own_list<K: Key>()
    ensures { AsOwnList (record { width = K.Key.width; bits = K.Key.bits; key = K.Key.key; before = K.Key.before }) }
{}

// The level search answers the key's bucket.
pub fn search_finds()
    ensures { SearchFinds }
{}

// The cases worked out on the test track.
pub fn tracks_hold()
    ensures { Tracks }
{}
