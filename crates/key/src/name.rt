// Names: byte by byte from the first.
ghost use Rattle.std.specs.Prelude.{◌≡◌, ◌^◌};
ghost use Rattle.std.proofs.Common.{refl, sym, ◌∙◌, rules};
ghost use Rattle.key.specs.Kinds.{name_bits, name_of, name_before, name_at};
ghost use Rattle.key.specs.Same.{names};
ghost use Rattle.digits.proofs.Sevens.{bytes_under};
ghost use Rattle.key.specs.Within.{reads, within_exact, within_every};
ghost use Rattle.digits.proofs.Order.{bytes_compared, bytes_order};

use crate::kinds::Name;
use crate::{Key, OwnOrder};

impl Key for Name {
    const WIDTH: u32 = 56;

    ghost width = { 56 };

    ghost bits = { name_bits };

    ghost key = { name_of };

    ghost before = { name_before };

    ghost wide = { Prim.search rules };

    ghost below = { names.below };

    ghost again = { λ k. reads names _ k refl };

    ghost exact = { within_exact _ _ _ names.back };

    ghost every = { within_every (2 ^ 56) name_at };

    ghost ordered = { λ a b. bytes_order a.bytes b.bytes (a.long ∙ sym b.long) (bytes_under a.bytes a.fits) (bytes_under b.bytes b.fits) };

    fn bit_width() -> u32 {
        Self::WIDTH
    }

    fn to_bits(&self) -> u64 {
        let [a, b, c, d, e, f, g] = self.bytes;
        u64::from_be_bytes([0, a, b, c, d, e, f, g])
    }

    fn from_bits(number: u64) -> Option<Name> {
        let [0, a, b, c, d, e, f, g] = number.to_be_bytes() else {
            return None;
        };
        Some(Name::new([a, b, c, d, e, f, g]))
    }

    // Up to the first byte that differs: sooner done than all seven as a number.
    fn is_before(&self, other: &Name) -> bool {
        for i in 0..7 {
            if self.bytes[i] != other.bytes[i] {
                return self.bytes[i] < other.bytes[i];
            }
        }
        false
    }
}

impl OwnOrder for Name {
    ghost compared = { λ a b. bytes_compared a.bytes b.bytes (a.long ∙ sym b.long) };
}
