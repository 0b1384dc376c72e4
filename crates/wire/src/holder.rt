// Who holds a lease: a number from 1 to 2^32 - 1. The ghost field keeps every holder in these bounds.
ghost use Rattle.std.specs.Prelude.{◌≡◌, ◌^◌, ◌<◌, ◌≤◌, ◌⊎◌, MatchResult};
ghost use Rattle.ordered.specs.declared.refusal.Refusal.TheVariants.{Malformed};

use ordered::Refusal;

#[derive(Clone, Copy, PartialEq, Eq, Debug)]
pub struct Holder {
    number: u32,
    ghost bounds: { (0 < number) × (number < 2 ^ 32) },
}

impl Holder {
    // The field itself, as `NonZeroU32::get` gives it.
    pub fn number(self) -> u32
        ensures { result ≡ self.number }
    {
        self.number
    }
}

// Malformed where the number is out of bounds.
impl TryFrom<u64> for Holder {
    type Error = Refusal;

    ghost try_from_gives = { λ n r. MatchResult r (λ h. h.number ≡ n) (λ e. (e ≡ Malformed) × ((n ≡ 0) ⊎ (2 ^ 32 ≤ n))) };

    fn try_from(number: u64) -> Result<Holder, Refusal> {
        match number {
            1..=0xFFFF_FFFF => Ok(Holder {
                number: number as u32,
            }),
            _ => Err(Refusal::Malformed),
        }
    }
}
