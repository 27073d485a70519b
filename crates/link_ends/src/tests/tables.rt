//! What each call on lines and dials in memory answers. A row's first column is the near side's, its
//! second the far side's.

use super::plays::Step::{
    Back, Connections, Dial, Gather, Leave, LeaveLate, Read, ReadAll, Rest, Write, WriteAll,
    WriteAllAndBack,
};
use super::plays::{Act, MOST, Row, play};
use super::streams::Answer::{Again, Bytes, Done, Ended, Failed, Gone, Line, Other};
use crate::{Cut, LinkKind, MemoryDials, Mishap, OpenFault, Plan, PlanDials};
use std::test::Fail;
use wp_outside::{Direction, Side};

const REST: Act = (Rest, Done, 0);

const BACK: Act = (Back, Done, 0);

/// A line and its break; bytes in pieces of 1 and of 65,536, from a side that goes once they are
/// taken while the other one reads; and a side that dials on when the other has left.
const ANSWERS: [Row; 17] = [
    ((Dial(true), Line, 1), (Dial(true), Line, 1)),
    (REST, (Read(4), Again, 0)),
    ((Write(5), Bytes, 5), REST),
    (REST, (Read(4), Bytes, 4)),
    (BACK, REST),
    (REST, (Read(4), Bytes, 1)),
    (REST, (Read(4), Ended, 0)),
    (REST, BACK),
    ((Dial(false), Line, 2), (Dial(true), Line, 2)),
    (
        (WriteAllAndBack(1, 3000), Bytes, 3000),
        (ReadAll(1), Bytes, 3000),
    ),
    (REST, BACK),
    ((Dial(true), Line, 3), (Dial(false), Line, 3)),
    (
        (ReadAll(65_536), Bytes, 3_000_000),
        (WriteAllAndBack(65_536, 3_000_000), Bytes, 3_000_000),
    ),
    (BACK, REST),
    (REST, (Leave, Done, 0)),
    ((Dial(true), Gone, 0), REST),
    ((Dial(false), Failed, 0), REST),
];

/// The near side leaves, and the far one dials twice.
const PARTING: [Row; 3] = [
    ((Leave, Done, 0), REST),
    (REST, (Dial(true), Gone, 0)),
    (REST, (Dial(false), Failed, 0)),
];

/// A dial that waits is answered once the other side leaves.
const WAITING: [Row; 1] = [((Dial(false), Failed, 0), (LeaveLate, Done, 0))];

/// One connection after another until the near side leaves, and a dial of the far side beyond them.
const CONNECTIONS: [Row; 1] = [((Connections(64), Line, 64), (Connections(65), Line, 64))];

/// A writer pauses once the ring is full, which holds a mebibyte.
const FULL: [Row; 5] = [
    ((Dial(true), Line, 1), (Dial(true), Line, 1)),
    ((Write(MOST), Bytes, 1_048_576), REST),
    ((Write(1), Again, 0), REST),
    (REST, (Read(2), Bytes, 2)),
    ((Write(3), Bytes, 2), REST),
];

#[test]
fn answers(rt: HostRuntime) -> Result<(), Fail> {
    let mut pair = MemoryDials::new(rt.clone()?, rt.alloc());
    let tables: [&[Row]; 5] = [&ANSWERS, &PARTING, &WAITING, &CONNECTIONS, &FULL];
    for rows in tables {
        let first = play(&rt, rt.alloc(), &mut pair, LinkKind::Memory, &[], rows);
        assert_eq!(rt; first, Ok(None));
    }
    Ok(())
}

/// What the reader is given of 60 bytes on connections 1, 2 and 3, the first two of which are cut.
#[test]
fn cuts(rt: HostRuntime) -> Result<(), Fail> {
    let mut pair = MemoryDials::new(rt.clone()?, rt.alloc());
    let down = Cut {
        dir: Direction::Down,
        after: 7,
    };
    for (after, arriving, then) in [
        (0u64, 0u64, Ended),
        (1, 1, Ended),
        (51, 51, Ended),
        (60, 60, Ended),
        (1000, 60, Again),
    ] {
        let up = Cut {
            dir: Direction::Up,
            after,
        };
        let rows = [
            ((Dial(true), Line, 1), (Dial(true), Line, 1)),
            ((WriteAll(9, 60), Bytes, 60), REST),
            ((Read(64), Again, 0), (Gather(64), Bytes, arriving)),
            (REST, (Read(64), then, 0)),
            (BACK, BACK),
            ((Dial(true), Line, 2), (Dial(true), Line, 2)),
            (REST, (WriteAll(9, 60), Bytes, 60)),
            ((ReadAll(64), Bytes, 7), (Read(64), Again, 0)),
            (BACK, BACK),
            ((Dial(true), Line, 3), (Dial(true), Line, 3)),
            ((Write(60), Bytes, 60), REST),
            (REST, (Read(64), Bytes, 60)),
            (REST, (Read(64), Again, 0)),
        ];
        let cuts = [up, down];
        let first = play(&rt, rt.alloc(), &mut pair, LinkKind::Memory, &cuts, &rows);
        assert_eq!(rt; first, Ok(None), "cut after {after}");
    }
    Ok(())
}

/// Failures where they are planned, and none where none is.
#[test]
fn mishaps(rt: HostRuntime) -> Result<(), Fail> {
    let plans = vec![in rt.alloc();
        Plan {
            side: Side::Near,
            connection: 7,
            at: 0,
            what: Mishap::DialFails
        },
        Plan {
            side: Side::Near,
            connection: 1,
            at: 1,
            what: Mishap::WriteFails
        },
        Plan {
            side: Side::Far,
            connection: 1,
            at: 1,
            what: Mishap::ReadFails
        },
        Plan {
            side: Side::Far,
            connection: 1,
            at: 2,
            what: Mishap::Byte(9)
        },
    ]?;
    let failing: [Row; 9] = [
        ((Dial(true), Failed, 0), REST),
        ((Dial(true), Line, 1), (Dial(true), Line, 1)),
        ((Write(3), Bytes, 3), REST),
        ((Write(1), Failed, 0), REST),
        ((Write(1), Bytes, 1), REST),
        (REST, (Read(2), Bytes, 2)),
        (REST, (Read(4), Failed, 0)),
        (REST, (Read(1), Other, 9)),
        (REST, (Read(4), Bytes, 1)),
    ];
    let mut pair = PlanDials::new(rt.clone()?, rt.alloc(), plans);
    let first = play(&rt, rt.alloc(), &mut pair, LinkKind::Memory, &[], &failing);
    assert_eq!(rt; first, Ok(None));
    let mut pair = PlanDials::new(rt.clone()?, rt.alloc(), Vec::new(rt.alloc()));
    let first = play(&rt, rt.alloc(), &mut pair, LinkKind::Memory, &[], &ANSWERS);
    assert_eq!(rt; first, Ok(None));
    let first = play(&rt, rt.alloc(), &mut pair, LinkKind::Tcp, &[], &ANSWERS);
    assert_eq!(rt; first, Err(OpenFault::Failed));
    Ok(())
}
