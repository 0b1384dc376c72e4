// Zones, in numeric order.
ghost use Rattle.std.specs.Prelude.{◌≡◌, ◌^◌};
ghost use Rattle.key.specs.Kinds.{zone_bits, zone_of, zone_before, zone_at};
ghost use Rattle.std.proofs.Common.{refl, rules};
ghost use Rattle.key.specs.Same.{zones};
ghost use Rattle.key.specs.Within.{reads, within_exact, within_every};

use crate::kinds::Zone;
use crate::{Key, OwnOrder};

impl Key for Zone {
    const WIDTH: u32 = 8;

    ghost width = { 8 };

    ghost bits = { zone_bits };

    ghost key = { zone_of };

    ghost before = { zone_before };

    ghost wide = { Prim.search rules };

    ghost below = { zones.below };

    ghost again = { λ k. reads zones _ k refl };

    ghost exact = { within_exact _ _ _ zones.back };

    ghost every = { within_every (2 ^ 8) zone_at };

    ghost ordered = { Prim.search rules };

    fn bit_width() -> u32 {
        Self::WIDTH
    }

    fn to_bits(&self) -> u64 {
        self.number as u64
    }

    fn from_bits(number: u64) -> Option<Zone> {
        Some(Zone::new(u8::try_from(number).ok()?))
    }
}

impl OwnOrder for Zone {
    ghost compared = { Prim.search rules };
}
