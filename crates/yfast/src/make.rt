// Making an index: whether a dictionary fits a limit, and the index on it. A dictionary that does not
// fit gives a shut index, and is not touched.
ghost use Rattle.std.specs.Prelude.{◌≡◌, is_none, true, false, length, is_some};
ghost use Rattle.std.specs.Result.{result_err};
ghost use Rattle.ordered.specs.Fitness.{fitness};
ghost use Rattle.inside.specs.Making.{Bare, Made, Kept};

use crate::index::YFast;
use dictionary::Dictionary;
use forest::Grove;
use inside::Inside;
use key::Key;
use key::sizes::pairs_needed;
use ordered::Refusal;
use std::marker::PhantomData;

// The limit, then the capacity, then whether the dictionary was ever used.
pub fn fitness<K: Key, D: Dictionary>(limit: u32, dictionary: &D) -> Result<(), Refusal>
    ensures { result_err result ≡ fitness K.Key.width limit (D.Dictionary.room dictionary.now) (length (D.Dictionary.nodes dictionary.now)) (D.Dictionary.frames dictionary.now) }
{
    if limit == 0 || limit > 512 {
        Err(Refusal::Limit)
    } else if pairs_needed::<K>(limit) > dictionary.capacity() as u64 {
        Err(Refusal::Capacity)
    } else if dictionary.pairs_held() > 0 || dictionary.tally() > 0 {
        Err(Refusal::Used)
    } else {
        Ok(())
    }
}

impl<K: Key, D: Dictionary> YFast<K, D> {
    // Sets up representative 0, where the dictionary fits.
    pub fn new(limit: u32, mut dictionary: D) -> YFast<K, D>
        ensures shut { is_none result.inside ≡ is_some (fitness K.Key.width limit (D.Dictionary.room dictionary) (length (D.Dictionary.nodes dictionary)) (D.Dictionary.frames dictionary)) }
        ensures bare { Bare result.inside }
        ensures kept { is_none result.inside ≡ true → Kept dictionary result.inside result.dictionary }
        ensures made { is_none result.inside ≡ false → Made K.Key.width limit (D.Dictionary.room dictionary) result.inside (D.Dictionary.room result.dictionary) (D.Dictionary.frames result.dictionary) }
    {
        if fitness::<K, D>(limit, &dictionary).is_err() {
            return YFast {
                kind: PhantomData,
                dictionary,
                inside: None,
            };
        }
        let inside = Inside {
            grove: Grove::new(trie::make::<K, D>(&mut dictionary)),
            limit: limit as u16,
            count: 0,
        };
        YFast {
            kind: PhantomData,
            dictionary,
            inside: Some(inside),
        }
    }
}
