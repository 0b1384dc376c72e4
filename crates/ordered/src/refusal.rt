// Why something was turned away. Each case has one number.
ghost use Rattle.std.specs.Prelude.{◌≡◌};
ghost use Rattle.ordered.specs.Numbers.{number};

#[derive(Clone, Copy, PartialEq, Eq, Debug)]
pub enum Refusal {
    // An index of no entries, or of more than 512.
    Limit = 1,
    // The pairs that the limit asks for exceed the dictionary's capacity.
    Capacity = 2,
    // The dictionary holds a pair, or has made a frame.
    Used = 3,
    // The index, or one index of the book, is shut.
    Shut = 4,
    // A load onto a book with an entry.
    Standing = 5,
    // A command or a load of the wrong length.
    Length = 6,
    // An unknown code, an unused field that is not zero, a holder out of bounds.
    Malformed = 7,
    // A load's record out of its sequence.
    Sequence = 8,
    // A key of 2^w or more.
    TooLarge = 9,
    // A first key above the second.
    Order = 10,
    // A lease that ends on another piste.
    Piste = 11,
    // An add of a key that is held.
    Held = 12,
    // No such entry.
    Absent = 13,
    // An add at the limit.
    Full = 14,
    // No entry at or above a key, or at or below it.
    Nothing = 15,
    // More entries, or a longer save, than there is room for.
    Room = 16,
    // A lease that shares a station with a standing one.
    Shared = 17,
    // A release by another holder.
    Holder = 18,
    // The earliest event is later.
    Later = 19,
}

impl Refusal {
    // Its discriminant, with the contract that a cast has not.
    pub fn number(self) -> u8
        ensures { result ≡ number self }
    {
        self as u8
    }
}

#[cfg(test)]
mod tests {
    use super::Refusal;

    #[test]
    fn numbers(rt: HostRuntime) {
        assert_eq!(rt; Refusal::Limit.number(), 1);
        assert_eq!(rt; Refusal::TooLarge.number(), 9);
        assert_eq!(rt; Refusal::Later.number(), 19);
    }
}
