// Moments: by second, then by sequence. Two numbers in one, as a station; a call of a function shared by
// both would be no shorter than the two expressions here.
ghost use Rattle.std.specs.Prelude.{◌≡◌, ◌^◌};
ghost use Rattle.key.specs.Kinds.{moment_bits, moment_of, moment_before, moment_at};
ghost use Rattle.std.proofs.Common.{refl, rules};
ghost use Rattle.key.specs.Same.{moments};
ghost use Rattle.key.specs.Within.{reads, within_exact, within_every};
ghost use Rattle.digits.proofs.Order.{first_then_bits};

use crate::kinds::Moment;
use crate::{Key, OwnOrder};

impl Key for Moment {
    const WIDTH: u32 = 48;

    ghost width = { 48 };

    ghost bits = { moment_bits };

    ghost key = { moment_of };

    ghost before = { moment_before };

    ghost wide = { Prim.search rules };

    ghost below = { moments.below };

    ghost again = { λ k. reads moments _ k refl };

    ghost exact = { within_exact _ _ _ moments.back };

    ghost every = { within_every (2 ^ 48) moment_at };

    ghost ordered = { λ a b. first_then_bits _ a.second a.sequence b.second b.sequence a.fits.1 b.fits.1 };

    fn bit_width() -> u32 {
        Self::WIDTH
    }

    fn to_bits(&self) -> u64 {
        self.second as u64 * 0x1_0000 + self.sequence as u64
    }

    fn from_bits(number: u64) -> Option<Moment> {
        Some(Moment {
            second: u32::try_from(number / 0x1_0000).ok()?,
            sequence: (number % 0x1_0000) as u16,
        })
    }
}

impl OwnOrder for Moment {
    ghost compared = { Prim.search rules };
}
