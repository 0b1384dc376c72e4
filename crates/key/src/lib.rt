// Key kinds: a width in bits, a key as a number below 2^width, and the kind's own order.
//
// The width is the associated constant from which the sizes of buckets, the bound of a level search
// and the pairs an index needs are worked out.
#![tactic(auto)]

ghost use Rattle.std.specs.Prelude.{◌≡◌, ℕ, ◌^◌, ◌<◌, ◌≤◌, Bool, true, is_some, Some, Option as Maybe, nat_lt};
ghost use Rattle.std.specs.Ordering.{is_lt};

pub mod kinds;
pub mod moment;
pub mod name;
pub mod sizes;
pub mod station;
pub mod zone;

pub trait Key: Sized {
    const WIDTH: u32;

    ghost width: { ℕ };

    ghost bits: { Self → ℕ };

    // the key of some bits, if they are those of a key
    ghost key: { ℕ → Maybe Self };

    // the kind's own order
    ghost before: { Self → Self → Bool };

    fn bit_width() -> u32
        ensures { result ≡ width };

    // Not by `From` and `TryFrom`: the laws on the two are the trait's own.
    fn to_bits(&self) -> u64
        ensures { result ≡ bits self.now };

    // Nothing where the bits are no key's.
    fn from_bits(number: u64) -> Option<Self>
        ensures { result ≡ key number };

    fn is_before(&self, other: &Self) -> bool
        ensures { result ≡ before self.now other.now }
    {
        self.to_bits() < other.to_bits()
    }

    ghost wide: { (8 ≤ width) × (width ≤ 60) };

    ghost below: { (k : Self) → bits k < 2 ^ width };

    ghost again: { (k : Self) → key (bits k) ≡ Some k };

    ghost exact: { (n : ℕ) (k : Self) → key n ≡ Some k → bits k ≡ n };

    ghost every: { (n : ℕ) → n < 2 ^ width → is_some (key n) ≡ true };

    ghost ordered: { (a b : Self) → before a b ≡ nat_lt (bits a) (bits b) };
}

// A kind whose derived order is its own. Apart from `Key`, which asks no kind for an `Ord`.
pub trait OwnOrder: Key + Ord {
    ghost compared: { (a b : Self) → is_lt (Self.Ord.cmp a b) ≡ Self.before a b };
}

#[cfg(test)]
mod tests;
