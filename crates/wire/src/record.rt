// The four fields of 32 bytes, whatever they ask for.
ghost use Rattle.std.specs.Prelude.{◌≡◌, cond, length, MatchResult, ◌==◌, ◌≢◌};
ghost use Rattle.ordered.specs.declared.refusal.Refusal.TheVariants.{Length, Malformed};
ghost use Rattle.wire.specs.Records.{wire, Within};

use ordered::Refusal;

// The code is a number, since it may be one that no command has.
#[derive(Clone, Copy, PartialEq, Eq, Debug)]
pub struct Record {
    pub code: u8,
    pub first: u64,
    pub second: u64,
    pub note: u64,
}

// `to_bytes` and `from_bytes` are std's names for a format, as in `u64::from_be_bytes`.
impl Record {
    pub fn to_bytes(self) -> [u8; 32]
        ensures { result ≡ wire self }
    {
        let mut bytes = [0; 32];
        bytes[0] = self.code;
        bytes[8..16].copy_from_slice(&self.first.to_be_bytes());
        bytes[16..24].copy_from_slice(&self.second.to_be_bytes());
        bytes[24..32].copy_from_slice(&self.note.to_be_bytes());
        bytes
    }

    // Refused where the bytes are not 32, or where one from 1 to 7 is not zero.
    pub fn from_bytes(bytes: &[u8]) -> Result<Record, Refusal>
        ensures { MatchResult result (λ x. (bytes.now ≡ wire x) × Within x) (λ e. ((x : Record) → bytes.now ≢ wire x) × (e ≡ cond (length bytes.now == 32) Malformed Length)) }
    {
        let ([head, first, second, note], []) = bytes.as_chunks::<8>() else {
            return Err(Refusal::Length);
        };
        let [code, 0, 0, 0, 0, 0, 0, 0] = *head else {
            return Err(Refusal::Malformed);
        };
        Ok(Record {
            code,
            first: u64::from_be_bytes(*first),
            second: u64::from_be_bytes(*second),
            note: u64::from_be_bytes(*note),
        })
    }
}
