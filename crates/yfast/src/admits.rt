// Which keys are turned away before the first frame.
ghost use Rattle.std.specs.Prelude.{◌≡◌, ◌^◌};
ghost use Rattle.std.specs.Result.{result_err};
ghost use Rattle.ordered.specs.Sorted.{misfit};
ghost use Rattle.ordered.specs.declared.calls.Call.TheVariants.{Range};

use key::Key;
use ordered::Refusal;

// A key too large, then a first key above the second.
pub(crate) fn admits<K: Key>(first: u64, second: u64) -> Result<(), Refusal>
    ensures { result_err result ≡ misfit K.Key.width (Range first second) }
{
    let end = 1u64 << K::bit_width();
    if first >= end || second >= end {
        Err(Refusal::TooLarge)
    } else if first > second {
        Err(Refusal::Order)
    } else {
        Ok(())
    }
}
