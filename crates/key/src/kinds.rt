// The four kinds of keys: how they are made and read. Their numbers stay inside the ranges that the
// ghost fields say, so that a key is always one of its kind's 2^w. Their derived order is the kind's own.
// They are made by `new` and `from_text` alone: `From` and `TryFrom` would be second names for these.
ghost use Rattle.std.specs.Prelude.{◌≡◌, ℕ, ◌^◌, ◌<◌, ◌≤◌, length, MatchOption, slice_index};

// A zone across the blade.
#[derive(Clone, Copy, PartialEq, Eq, PartialOrd, Ord, Debug)]
pub struct Zone {
    pub(crate) number: u8,
    ghost fits: { number < 2 ^ 8 },
}

// A place along a piste, in decimetres.
#[derive(Clone, Copy, PartialEq, Eq, PartialOrd, Ord, Debug)]
pub struct Station {
    pub(crate) piste: u8,
    pub(crate) decimetre: u32,
    ghost fits: { (piste < 2 ^ 8) × (decimetre < 2 ^ 24) },
}

// A second, and a sequence number within it.
#[derive(Clone, Copy, PartialEq, Eq, PartialOrd, Ord, Debug)]
pub struct Moment {
    pub(crate) second: u32,
    pub(crate) sequence: u16,
    ghost fits: { (second < 2 ^ 32) × (sequence < 2 ^ 16) },
}

// Seven bytes, filled with zero bytes at the end.
#[derive(Clone, Copy, PartialEq, Eq, PartialOrd, Ord, Debug)]
pub struct Name {
    pub(crate) bytes: [u8; 7],
    ghost long: { length bytes ≡ 7 },
    ghost fits: { (i : ℕ) → slice_index bytes i < 2 ^ 8 },
}

impl Zone {
    pub fn new(number: u8) -> Zone
        ensures { result.number ≡ number }
    {
        Zone { number }
    }

    pub fn number(self) -> u8
        ensures { result ≡ self.number }
    {
        self.number
    }
}

impl Station {
    // Nothing where the decimetre does not fit 24 bits.
    pub fn new(piste: u8, decimetre: u32) -> Option<Station>
        ensures { MatchOption result (2 ^ 24 ≤ decimetre) (λ s. (decimetre < 2 ^ 24) × (s.piste ≡ piste) × (s.decimetre ≡ decimetre)) }
    {
        if decimetre < 0x100_0000 {
            Some(Station { piste, decimetre })
        } else {
            None
        }
    }

    pub fn piste(self) -> u8
        ensures { result ≡ self.piste }
    {
        self.piste
    }

    pub fn decimetre(self) -> u32
        ensures { result ≡ self.decimetre }
    {
        self.decimetre
    }
}

impl Moment {
    pub fn new(second: u32, sequence: u16) -> Moment
        ensures { (result.second ≡ second) × (result.sequence ≡ sequence) }
    {
        Moment { second, sequence }
    }

    pub fn second(self) -> u32
        ensures { result ≡ self.second }
    {
        self.second
    }

    pub fn sequence(self) -> u16
        ensures { result ≡ self.sequence }
    {
        self.sequence
    }
}

impl Name {
    pub fn new(bytes: [u8; 7]) -> Name
        ensures { result.bytes ≡ bytes }
    {
        Name { bytes }
    }

    // A text of at most seven bytes, filled with zero bytes at its end.
    pub fn from_text(text: &[u8]) -> Option<Name>
        ensures { MatchOption result (7 < length text.now) (λ n. (length text.now ≤ 7) × ((i : ℕ) → slice_index n.bytes i ≡ slice_index text.now i)) }
    {
        if text.len() > 7 {
            return None;
        }
        let mut bytes = [0; 7];
        bytes[..text.len()].copy_from_slice(text);
        Some(Name::new(bytes))
    }

    pub fn bytes(self) -> [u8; 7]
        ensures { result ≡ self.bytes }
    {
        self.bytes
    }
}
