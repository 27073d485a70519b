//! What the calls that want memory answer where there is enough.

use crate::{Blocks, Run};
use std::rt::HostRuntime;

#[test]
fn adding_joins_runs(rt: HostRuntime) {
    let mut blocks = Blocks::new(rt.alloc());
    blocks.add(4, 6).expect(&rt, "memory");
    blocks.add(8, 9).expect(&rt, "memory");
    blocks.add(1, 2).expect(&rt, "memory");
    blocks.add(2, 4).expect(&rt, "memory");
    let runs = blocks.runs();
    assert_eq!(rt;
        runs,
        [Run { first: 1, end: 6 }, Run { first: 8, end: 9 }].as_slice()
    );
    assert!(rt; blocks.contains(8));
    assert!(rt; !blocks.contains(9));
}

#[test]
fn union_merges_both(rt: HostRuntime) {
    let mut blocks = Blocks::new(rt.alloc());
    blocks.add(0, 2).expect(&rt, "memory");
    blocks.add(6, 7).expect(&rt, "memory");
    let mut others = Blocks::new(rt.alloc());
    others.add(2, 3).expect(&rt, "memory");
    others.add(9, 12).expect(&rt, "memory");
    blocks.union(&others).expect(&rt, "memory");
    assert_eq!(rt; blocks.len(), 3);
    blocks.hull();
    assert_eq!(rt; blocks.runs(), [Run { first: 0, end: 12 }].as_slice());
}
