//! What each call on lines and dials of either kind answers. A row's first column is the near side's,
//! its second the far side's.

use super::plays::Step::{
    Back, Connections, Dial, FillUp, Leave, LeaveLate, Read, ReadAll, ReadLate, Rest, Write,
    WriteAll, WriteAllAndBack,
};
use super::plays::{Act, Row, play};
use super::streams::Answer::{Again, Bytes, Done, Ended, Failed, Gone, Line};
use crate::TcpDials;
use crate::sockets::open_port;
use link_ends::{Cut, LinkKind};
use mio::net::TcpStream;
use std::test::Fail;
use wp_outside::Direction;

const REST: Act = (Rest, Done, 0);

const BACK: Act = (Back, Done, 0);

/// A line and its break; bytes in pieces of 1 and of 65,536, from a side that goes once they are
/// taken while the other one reads; a line without room; and a side that dials on when the other has
/// left.
const ANSWERS: [Row; 19] = [
    ((Dial(true), Line, 1), (Dial(true), Line, 1)),
    (REST, (Read(4), Again, 0)),
    ((Write(5), Bytes, 5), REST),
    (REST, (ReadLate(4), Bytes, 4)),
    (BACK, REST),
    (REST, (ReadLate(4), Bytes, 1)),
    (REST, (ReadLate(4), Ended, 0)),
    (REST, BACK),
    ((Dial(false), Line, 2), (Dial(true), Line, 2)),
    (
        (WriteAllAndBack(1, 3000), Bytes, 3000),
        (ReadAll(1), Bytes, 3000),
    ),
    (REST, BACK),
    ((Dial(true), Line, 3), (Dial(false), Line, 3)),
    (
        (ReadAll(65_536), Bytes, 3_000_000),
        (WriteAllAndBack(65_536, 3_000_000), Bytes, 3_000_000),
    ),
    (BACK, REST),
    ((Dial(true), Line, 4), (Dial(true), Line, 4)),
    ((FillUp(65_536), Again, 0), REST),
    (BACK, BACK),
    (REST, (Leave, Done, 0)),
    ((Dial(true), Gone, 0), REST),
];

/// The near side leaves, and the far one dials twice.
const PARTING: [Row; 3] = [
    ((Leave, Done, 0), REST),
    (REST, (Dial(true), Gone, 0)),
    (REST, (Dial(false), Failed, 0)),
];

/// The far side leaves, and the near one dials twice.
const FAR_PARTING: [Row; 3] = [
    (REST, (Leave, Done, 0)),
    ((Dial(true), Gone, 0), REST),
    ((Dial(false), Failed, 0), REST),
];

/// A dial that waits is answered once the other side leaves.
const WAITING: [Row; 1] = [((LeaveLate, Done, 0), (Dial(false), Failed, 0))];

/// One connection after another until the near side leaves, and a dial of the far side beyond them.
const CONNECTIONS: [Row; 1] = [((Connections(64), Line, 64), (Connections(65), Line, 64))];

#[test]
fn answers(rt: HostRuntime) -> Result<(), Fail> {
    let mut pair = TcpDials::new(rt.clone()?, rt.alloc());
    let tables: [&[Row]; 5] = [&ANSWERS, &PARTING, &FAR_PARTING, &WAITING, &CONNECTIONS];
    for kind in [LinkKind::Memory, LinkKind::Tcp] {
        for rows in tables {
            let first = play(&rt, rt.alloc(), &mut pair, kind, &[], rows);
            assert_eq!(rt; first, Ok(None));
        }
    }
    Ok(())
}

/// By TCP a reader is given the bytes before the cut, and those past it are taken and lost; and bytes
/// that nobody read make the other side's end a failure.
#[test]
fn by_tcp(rt: HostRuntime) -> Result<(), Fail> {
    let cuts = [
        Cut {
            dir: Direction::Up,
            after: 51,
        },
        Cut {
            dir: Direction::Down,
            after: 0,
        },
        Cut {
            dir: Direction::Up,
            after: 1,
        },
        Cut {
            dir: Direction::Down,
            after: 1000,
        },
    ];
    let rows: [Row; 15] = [
        ((Dial(true), Line, 1), (Dial(true), Line, 1)),
        ((WriteAll(20, 60), Bytes, 60), (ReadAll(64), Bytes, 51)),
        (BACK, BACK),
        ((Dial(true), Line, 2), (Dial(true), Line, 2)),
        ((ReadAll(64), Bytes, 0), (WriteAll(20, 60), Bytes, 60)),
        (BACK, BACK),
        ((Dial(true), Line, 3), (Dial(true), Line, 3)),
        ((WriteAll(20, 60), Bytes, 60), (ReadAll(64), Bytes, 1)),
        (BACK, BACK),
        ((Dial(true), Line, 4), (Dial(true), Line, 4)),
        ((ReadLate(64), Bytes, 60), (Write(60), Bytes, 60)),
        ((Write(3), Bytes, 3), REST),
        (REST, BACK),
        ((ReadLate(4), Failed, 0), REST),
        ((Write(1), Failed, 0), REST),
    ];
    let mut pair = TcpDials::new(rt.clone()?, rt.alloc());
    let first = play(&rt, rt.alloc(), &mut pair, LinkKind::Tcp, &cuts, &rows);
    assert_eq!(rt; first, Ok(None));
    Ok(())
}

/// Who connects and goes away before its number is no line.
#[test]
fn strangers(rt: HostRuntime) -> Result<(), Fail> {
    let Ok((mut near, mut far)) = open_port(&rt, rt.alloc()) else {
        return Err(Fail::new("no port"));
    };
    let stranger = TcpStream::connect(&rt, near.port())?;
    drop(stranger);
    let (Ok(_stream), Ok((connection, _))) = (near.reach(&rt, 3), far.accept(&rt)) else {
        return Err(Fail::new("no line"));
    };
    assert_eq!(rt; connection, 3);
    Ok(())
}
