// An index: its dictionary, and what it keeps beside it. A shut index keeps nothing.
ghost use Rattle.inside.specs.Whole.{Sound};
ghost use Rattle.inside.specs.Props.{Sound-prop};

use dictionary::Dictionary;
pub use inside::Inside;
use key::Key;
use std::marker::PhantomData;

#[derive(Drop)]
pub struct YFast<K: Key, D: Dictionary> {
    pub(crate) kind: PhantomData<K>,
    pub(crate) dictionary: D,
    pub(crate) inside: Option<Inside>,
    ghost sound: { Sound K.width (D.pairs dictionary) (D.room dictionary) (D.frames dictionary) inside } by { Sound-prop K.width (D.pairs dictionary) (D.room dictionary) (D.frames dictionary) inside },
}
