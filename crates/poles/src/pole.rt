// A pole. It derives nothing that compares.
ghost use Rattle.std.specs.Prelude.{◌≡◌, ◌^◌, ◌<◌};

#[derive(Drop)]
pub struct Pole {
    number: u8,
    ghost fits: { number < 2 ^ 8 },
}

impl Pole {
    pub fn new(number: u8) -> Pole
        ensures { result.number ≡ number }
    {
        Pole { number }
    }

    pub fn number(&self) -> u8
        ensures { result ≡ self.now.number }
    {
        self.number
    }
}
