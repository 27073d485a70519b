//! The rids of a few handles, and what a table says of rids that it keeps.

use super::*;
use std::test::Fail;
use wp_outside::{HandleKind, Side};

fn file(number: i32) -> Handle {
    Handle {
        number,
        kind: HandleKind::File,
    }
}

fn pipe(number: i32) -> Handle {
    Handle {
        number,
        kind: HandleKind::PipeWrite,
    }
}

#[test]
fn rids(rt: HostRuntime) {
    let mut near = Handles::new(rt.alloc(), Side::Near);
    assert_eq!(rt; near.pass(file(5)), Ok((1, true)));
    assert_eq!(rt; near.pass(file(5)), Ok((1, false)));
    assert_eq!(rt; near.pass(file(7)), Ok((2, true)));
    assert_eq!(rt; near.rid_of(7), Some(2));
    assert_eq!(rt; near.rid_of(9), None);
    let mut far = Handles::new(rt.alloc(), Side::Far);
    assert_eq!(rt; far.pass(file(5)), Ok((-1, true)));
    assert_eq!(rt;
        far.pass(pipe(5)),
        Ok((-2, true)),
        "another kind is another handle"
    );
    assert_eq!(rt; far.rid_of(5), Some(-2), "the pipe's end comes first");
}

#[test]
fn seats_as_foreseen(rt: HostRuntime) {
    let mut far = Handles::new(rt.alloc(), Side::Far);
    let seat = Seat {
        place: 1,
        rid: -2,
        is_new: true,
    };
    assert_eq!(rt; far.pass(file(-5)), Ok((-1, true)));
    assert_eq!(rt; far.foresee(pipe(-5)), Some(seat));
    assert_eq!(rt; far.pass(pipe(-5)), Ok((-2, true)));
    assert_eq!(rt;
        far.foresee(pipe(-5)),
        Some(Seat {
            is_new: false,
            ..seat
        })
    );
}

#[test]
fn kept_rids(rt: HostRuntime) {
    let mut near = Handles::new(rt.alloc(), Side::Near);
    assert_eq!(rt; near.took(-1, HandleKind::PipeWrite), Ok(()));
    assert_eq!(rt; near.took(-2, HandleKind::File), Ok(()));
    assert_eq!(rt; near.kind_of(-1), Some(HandleKind::PipeWrite));
    assert_eq!(rt; near.kind_of(-2), Some(HandleKind::File));
    assert_eq!(rt; near.kind_of(1), None);
    assert_eq!(rt;
        near.rid_of(-1),
        None,
        "a kept rid is no number that was passed"
    );
}
