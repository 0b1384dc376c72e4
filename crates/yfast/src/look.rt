// The search for a key's bucket, and the look for the key in the tree of that bucket.
ghost use Rattle.std.specs.Prelude.{◌≡◌, ◌^◌, ◌<◌};
ghost use Rattle.dictionary.specs.Pairs.{raised};
ghost use Rattle.trie.specs.Sound.{Sound as TrieSound};
ghost use Rattle.inside.specs.Looks.{Looked};

use dictionary::Dictionary;
use inside::Inside;
use key::Key;
use trees::Found;
use trie::locate;

// The bucket's number, the frames of the search, and what stands under the key.
#[derive(Clone, Copy, PartialEq, Eq, Debug)]
pub(crate) struct Look {
    pub(crate) number: u16,
    pub(crate) frames: u16,
    pub(crate) found: Found,
}

pub(crate) fn look_up<K: Key, D: Dictionary>(d: &mut D, inside: &Inside, key: u64) -> Look
    requires sound { TrieSound K.Key.width (D.Dictionary.pairs d.old) inside.now.grove.table }
    requires fits { key < 2 ^ K.Key.width }
    ensures looked { Looked K.Key.width inside.now key result.number result.frames result.found }
    ensures tally { D.Dictionary.frames d.new ≡ raised (D.Dictionary.frames d.old) result.frames }
    ensures pairs { D.Dictionary.pairs d.new ≡ D.Dictionary.pairs d.old }
    ensures room { D.Dictionary.room d.new ≡ D.Dictionary.room d.old }
{
    let grove = &inside.grove;
    let at = locate::<K, D>(d, &grove.table, key);
    let root = grove.table.root(at.number);
    Look {
        number: at.number,
        frames: at.frames,
        found: trees::find(&grove.pool.nodes, root, key),
    }
}
