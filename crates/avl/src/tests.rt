// Worked numbers.

use crate::*;
use entry::Entry;
use std::test::Fail;
use trees::{NONE, Node};

const BLANK: Node = Node {
    key: 0,
    note: 0,
    left: NONE,
    right: NONE,
    height: 0,
};

// Keys that rise: the third one turns the tree, so that 20 stands above 10 and 30.
#[test]
fn rising_keys(rt: HostRuntime) -> Result<(), Fail> {
    let mut nodes = [BLANK; 3];
    let one = insert(&mut nodes, NONE, 0, Entry { key: 10, note: 1 });
    let two = insert(&mut nodes, one.root, 1, Entry { key: 20, note: 2 });
    let three = insert(&mut nodes, two.root, 2, Entry { key: 30, note: 3 });
    assert_eq!(rt; three, Grown { root: 1, visits: 2 });
    let cut = remove(&mut nodes, three.root, 20);
    assert_eq!(rt;
        cut,
        Shrunk {
            root: 2,
            gone: 1,
            visits: 1
        }
    );
    Ok(())
}

#[test]
fn free_nodes(rt: HostRuntime) {
    let mut pool = Pool::new();
    assert_eq!(rt; pool.take(), Some(511));
    assert_eq!(rt; pool.take(), Some(510));
}
