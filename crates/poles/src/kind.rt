// Poles as keys, in numeric order.
ghost use Rattle.std.specs.Prelude.{◌≡◌, ◌^◌};
ghost use Rattle.std.proofs.Common.{refl, rules};
ghost use Rattle.key.specs.Within.{reads, within_exact, within_every};
ghost use Rattle.poles.specs.Poles.{pole_bits, pole_at, pole_of, pole_before, poles};

use crate::pole::Pole;
use key::Key;

impl Key for Pole {
    const WIDTH: u32 = 8;

    ghost width = { 8 };

    ghost bits = { pole_bits };

    ghost key = { pole_of };

    ghost before = { pole_before };

    ghost wide = { Prim.search rules };

    ghost below = { poles.below };

    ghost again = { λ k. reads poles _ k refl };

    ghost exact = { within_exact _ _ _ poles.back };

    ghost every = { within_every (2 ^ 8) pole_at };

    ghost ordered = { Prim.search rules };

    fn bit_width() -> u32 {
        Self::WIDTH
    }

    fn to_bits(&self) -> u64 {
        self.number() as u64
    }

    fn from_bits(number: u64) -> Option<Pole> {
        Some(Pole::new(u8::try_from(number).ok()?))
    }
}
