// Stations: by piste, then by decimetre.
ghost use Rattle.std.specs.Prelude.{◌≡◌, ◌^◌};
ghost use Rattle.key.specs.Kinds.{station_bits, station_of, station_before, station_at};
ghost use Rattle.std.proofs.Common.{refl, rules};
ghost use Rattle.key.specs.Same.{stations};
ghost use Rattle.key.specs.Within.{reads, within_exact, within_every};
ghost use Rattle.digits.proofs.Order.{first_then_bits};

use crate::kinds::Station;
use crate::{Key, OwnOrder};

impl Key for Station {
    const WIDTH: u32 = 32;

    ghost width = { 32 };

    ghost bits = { station_bits };

    ghost key = { station_of };

    ghost before = { station_before };

    ghost wide = { Prim.search rules };

    ghost below = { stations.below };

    ghost again = { λ k. reads stations _ k refl };

    ghost exact = { within_exact _ _ _ stations.back };

    ghost every = { within_every (2 ^ 32) station_at };

    ghost ordered = { λ a b. first_then_bits _ a.piste a.decimetre b.piste b.decimetre a.fits.1 b.fits.1 };

    fn bit_width() -> u32 {
        Self::WIDTH
    }

    fn to_bits(&self) -> u64 {
        self.piste as u64 * 0x100_0000 + self.decimetre as u64
    }

    fn from_bits(number: u64) -> Option<Station> {
        Some(Station {
            piste: u8::try_from(number / 0x100_0000).ok()?,
            decimetre: (number % 0x100_0000) as u32,
        })
    }
}

impl OwnOrder for Station {
    ghost compared = { Prim.search rules };
}
