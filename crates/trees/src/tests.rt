// Worked numbers, on a pool of three nodes with the keys 10, 20 and 30.

use crate::*;
use entry::Entry;
use std::test::Fail;

const SMALL: [Node; 3] = [
    Node {
        key: 20,
        note: 2,
        left: 1,
        right: 2,
        height: 2,
    },
    Node {
        key: 10,
        note: 1,
        left: NONE,
        right: NONE,
        height: 1,
    },
    Node {
        key: 30,
        note: 3,
        left: NONE,
        right: NONE,
        height: 1,
    },
];

const TEN: Entry = Entry { key: 10, note: 1 };

const TWENTY: Entry = Entry { key: 20, note: 2 };

const THIRTY: Entry = Entry { key: 30, note: 3 };

#[test]
fn looks(rt: HostRuntime) -> Result<(), Fail> {
    let nodes = SMALL;
    let held = find(&nodes, 0, 30);
    assert_eq!(rt; held.entry, Some(THIRTY));
    assert_eq!(rt; held.visits, 2);
    let missing = find(&nodes, 0, 25);
    assert_eq!(rt; missing.entry, None);
    assert_eq!(rt; missing.visits, 2);
    assert_eq!(rt; next(&nodes, 0, 11).entry, Some(TWENTY));
    assert_eq!(rt; last(&nodes, 0, 29).entry, Some(TWENTY));
    assert_eq!(rt; first_entry(&nodes, 0).entry, Some(TEN));
    assert_eq!(rt; last_entry(&nodes, 0).entry, Some(THIRTY));
    Ok(())
}

#[test]
fn spans_and_walks(rt: HostRuntime) -> Result<(), Fail> {
    let nodes = SMALL;
    assert_eq!(rt; count(&nodes, 0, 10, 29), 2);
    let other = Entry { key: 7, note: 7 };
    let mut out = [other; 4];
    assert_eq!(rt; span(&nodes, 0, 10, 20, &mut out, 1), 3);
    assert_eq!(rt; out, [other, TEN, TWENTY, other]);
    let mut row = [9u16; 3];
    assert_eq!(rt; walk(&nodes, 0, &mut row, 0), 3);
    assert_eq!(rt; row, [1, 0, 2]);
    Ok(())
}

#[test]
fn minimal_counts(rt: HostRuntime) {
    for three in FEWEST.windows(3) {
        assert_eq!(rt;
            u32::from(three[2]),
            1 + u32::from(three[1]) + u32::from(three[0])
        );
    }
    assert_eq!(rt; fewest_at(10), 143);
    assert_eq!(rt; tallest(0), 0);
    assert_eq!(rt; tallest(142), 9);
    assert_eq!(rt; tallest(143), 10);
    assert_eq!(rt; tallest(231), 10);
}
