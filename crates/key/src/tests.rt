// Worked numbers.
use crate::Key;
use crate::kinds::{Moment, Name, Station, Zone};
use crate::sizes::{half_width, pairs_needed, search_bound};
use std::test::Fail;

#[test]
fn bits_and_back(rt: HostRuntime) -> Result<(), Fail> {
    let Some(station) = Station::new(3, 5) else {
        return Err(Fail::new("too far"));
    };
    assert_eq!(rt; station.to_bits(), 50_331_653);
    assert_eq!(rt; Moment::new(1, 2).to_bits(), 65_538);
    Ok(())
}

#[test]
fn names_keep_every_byte(rt: HostRuntime) -> Result<(), Fail> {
    let Some(name) = Name::from_text(b"a\"\\") else {
        return Err(Fail::new("too long"));
    };
    assert_eq!(rt; name.to_bits(), 0x0061_225C_0000_0000);
    assert_eq!(rt; <Name as Key>::from_bits(name.to_bits()), Some(name));
    assert_eq!(rt; name.bytes()[2], b'\\');
    Ok(())
}

#[test]
fn own_orders(rt: HostRuntime) {
    assert!(rt; Zone::new(2).is_before(&Zone::new(10)));
    assert!(rt; Moment::new(1, 9).is_before(&Moment::new(2, 0)));
    assert!(rt; Moment::new(2, 0).is_before(&Moment::new(2, 9)));
    assert!(rt; !Name::new(*b"ab\0\0\0\0\0").is_before(&Name::new(*b"aa\0\0\0\0\0")));
}

#[test]
fn what_does_not_fit(rt: HostRuntime) {
    assert_eq!(rt; Station::new(0, 0x100_0000), None);
    assert_eq!(rt; Name::from_text(b"eightsss"), None);
    assert_eq!(rt; <Zone as Key>::from_bits(256), None);
    assert_eq!(rt; <Station as Key>::from_bits(0x1_0000_0000), None);
    assert_eq!(rt; <Moment as Key>::from_bits(0x1_0000_0000_0000), None);
    assert_eq!(rt; <Name as Key>::from_bits(0x100_0000_0000_0000), None);
}

#[test]
fn sizes(rt: HostRuntime) {
    assert_eq!(rt; half_width::<Zone>(), 4);
    assert_eq!(rt; search_bound::<Zone>(), 5);
    assert_eq!(rt; search_bound::<Station>(), 7);
    assert_eq!(rt; pairs_needed::<Station>(383), 759);
    assert_eq!(rt; pairs_needed::<Station>(384), 792);
    assert_eq!(rt; pairs_needed::<Name>(0), 57);
}
