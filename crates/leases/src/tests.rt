// Worked numbers: stations (3, 5) to (3, 9) leased by holder 7.
use crate::checks::early;
use crate::stretch::{entered, finish, holder};
use ordered::Refusal;
use std::test::Fail;
use wire::{Command, Holder};

#[test]
fn a_stretch(rt: HostRuntime) -> Result<(), Fail> {
    let Ok(seven) = Holder::try_from(7) else {
        return Err(Fail::new("no holder"));
    };
    let lease = entered(50_331_653, 50_331_657, seven);
    assert_eq!(rt; lease.note, 38_654_705_671);
    assert_eq!(rt; finish(lease), 50_331_657);
    assert_eq!(rt; holder(lease), 7);
    let Err(refusal) = early(Command::Lease(50_331_653, 67_108_864, seven)) else {
        return Err(Fail::new("accepted"));
    };
    assert_eq!(rt; refusal.number(), 11);
    Ok(())
}
