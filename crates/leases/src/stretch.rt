// What a lease's entry says.
ghost use Rattle.std.specs.Prelude.{◌≡◌, ◌^◌, ◌<◌};
ghost use Rattle.leases.specs.Stretches.{entered as entry_of, end, holder_of};

use entry::Entry;
use wire::Holder;

// How many stations a piste has: a station's bits are its piste's number times this and its decimetre.
const DECIMETRES: u64 = 0x100_0000;

// One above the highest holder: a note is the end's decimetre times this and the holder.
const HOLDERS: u64 = 0x1_0000_0000;

// The entry of a lease from a first station to a second.
pub fn entered(first: u64, second: u64, holder: Holder) -> Entry
    ensures { result ≡ entry_of first second holder.number }
{
    Entry {
        key: first,
        note: second % DECIMETRES * HOLDERS + holder.number() as u64,
    }
}

// The last station of a lease.
pub fn finish(lease: Entry) -> u64
    requires { lease.key < 2 ^ 60 }
    ensures { result ≡ end lease }
{
    lease.key / DECIMETRES * DECIMETRES + lease.note / HOLDERS
}

pub fn holder(lease: Entry) -> u64
    ensures { result ≡ holder_of lease }
{
    lease.note % HOLDERS
}
