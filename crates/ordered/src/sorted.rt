// The sorted list of a kind's own keys tells, call by call, what the list by bits tells.
ghost use Rattle.ordered.specs.Runs.{ListsAgree};

use key::Key;

pub fn lists_agree<K: Key>()
    ensures { ListsAgree (record { width = K.Key.width; bits = K.Key.bits; key = K.Key.key; before = K.Key.before }) }
{}
