// Worked numbers.
use crate::bytes::code_of;
use crate::command::Command;
use crate::holder::Holder;
use crate::record::Record;
use crate::reply::reply;
use entry::Entry;
use ordered::{Answer, Rebuilding, Refusal};

#[test]
fn a_name_and_back(rt: HostRuntime) {
    let command = Command::AddName(0x0047_4C41_4445_0000, 12);
    let bytes = command.to_bytes();
    assert_eq!(rt; bytes[0], 1);
    assert_eq!(rt; bytes[9], 0x47);
    assert_eq!(rt; bytes[31], 12);
    assert_eq!(rt; Command::from_bytes(&bytes).ok(), Some(command));
}

#[test]
fn a_command_and_its_record(rt: HostRuntime) {
    let form = Record {
        code: 6,
        first: 50_331_653,
        second: 0,
        note: 7,
    };
    let seven = Holder::try_from(7).ok();
    let release = seven.map(|holder| Command::Release(50_331_653, holder));
    assert_eq!(rt; Command::try_from(form).ok(), release);
    assert_eq!(rt; release.map(Record::from), Some(form));
}

#[test]
fn what_is_malformed(rt: HostRuntime) {
    let mut bytes = Command::Who(7).to_bytes();
    bytes[31] = 1;
    assert_eq!(rt; code_of(&bytes), 7);
    assert!(rt; Command::from_bytes(&bytes).is_err());
    assert!(rt; Holder::try_from(0).is_err());
    assert!(rt; Holder::try_from(0x1_0000_0000).is_err());
}

#[test]
fn an_answer(rt: HostRuntime) {
    let found = Answer {
        outcome: Ok(Entry { key: 258, note: 7 }),
        number: 0,
        frames: 300,
        visits: 2,
        rebuilding: Rebuilding::Merge,
    };
    let bytes = reply(4, found);
    assert_eq!(rt; bytes[2], 1);
    assert_eq!(rt; bytes[3], 44);
    assert_eq!(rt; bytes[6], 2);
    assert_eq!(rt; bytes[14], 1);
    assert_eq!(rt; bytes[23], 7);
    assert_eq!(rt; Refusal::Shared.number(), 17);
}
