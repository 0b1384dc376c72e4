// An index over poles.
use crate::Pole;
use dictionary::Dictionary;
use entry::Entry;
use key::Key;
use key::sizes::half_width;
use ordered::{Answer, Call, Refusal};
use robin_hood::table::RobinHood;
use yfast::run::run_new;

#[test]
fn an_index_over_poles(rt: HostRuntime) {
    let calls = [Call::Add(48, 7), Call::Find(48), Call::Find(0)];
    let mut answers = [Answer::refused(Refusal::Shut, 0, 0); 3];
    let mut places = [Entry { key: 0, note: 0 }; 1];
    let module = <RobinHood as Dictionary>::new();
    let _index = run_new::<Pole, RobinHood>(64, module, &calls, &mut answers, &mut places);
    assert_eq!(rt; answers[1].outcome, Ok(Entry { key: 48, note: 7 }));
    assert_eq!(rt; answers[1].frames, 4);
    assert_eq!(rt; answers[2].outcome, Err(Refusal::Absent));
    assert_eq!(rt; answers[2].frames, 5);
}

#[test]
fn poles_by_their_bits(rt: HostRuntime) {
    assert_eq!(rt; half_width::<Pole>(), 4);
    assert_eq!(rt; Pole::new(200).to_bits(), 200);
    assert!(rt; Pole::new(2).is_before(&Pole::new(10)));
    assert!(rt; !Pole::new(10).is_before(&Pole::new(10)));
}
