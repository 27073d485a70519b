ghost use Rattle.std.specs.Prelude.{◌≡◌, IfSome};

use self::Came::{Cut, Greets, Silence};
use super::*;
use std::alloc::Global;
use std::test::*;
use wl_wire::Bytes;

/// What each RESTART begins with: its type and length, and the token of the session.
const GREETS: &str = "1104000000112233445566778899aabbccddeeff";

/// The bytes that were read on a connection, in hexadecimal: none, some that end in RESTART, or
/// what follows the beginning of RESTART.
#[derive(Clone, Copy)]
enum Came {
    Silence,
    Cut(&'static str),
    Greets(&'static str),
}

/// A line from which these bytes were read.
fn line(alloc: Global, connection: u32, came: Came) -> Option<PlainLine>
    ensures { IfSome result (λ line. line.connection ≡ connection) }
{
    let (first, second) = match came {
        Came::Silence => ("", ""),
        Came::Cut(first) => (first, ""),
        Came::Greets(second) => (GREETS, second),
    };
    let mut bytes = hex::decode(alloc, first).ok()?;
    let rest = hex::decode(alloc, second).ok()?;
    bytes.extend_from_slice(&rest).ok()?;
    let read = Bytes::from_vec(bytes);
    let written = Bytes::new(alloc);
    Some(PlainLine {
        connection,
        written,
        read,
    })
}

/// How many frames a side accepted, and which count it was told, where it read these bytes on the
/// connections 1, 2 and 3.
fn heard_on_three(alloc: Global, reads: &[Came; 3]) -> Option<(usize, u64)> {
    let first = line(alloc, 1, reads[0])?;
    let second = line(alloc, 2, reads[1])?;
    let third = line(alloc, 3, reads[2])?;
    let heard = hear_lines(alloc, &[first, second, third]).ok()?;
    Some((heard.frames.len(), heard.acknowledged))
}

/// What both sides read on three connections, and how many frames each accepted and which count it
/// was told, worked out by hand.
struct Row {
    what: &'static str,
    near_read: [Came; 3],
    far_read: [Came; 3],
    near: (usize, u64),
    far: (usize, u64),
}

// The counted frames are OPEN_PIPE with rids from 1 up and from -1 down.
const ROWS: [Row; 6] = [
    Row {
        what: "a frame is lost with its connection and sent again",
        near_read: [
            Greets("010000000000000000000000900100000100000000000000"),
            Greets("020000000100000000000000900100000300000000000000"),
            Silence,
        ],
        far_read: [
            Greets("01000000000000000000000008010000010000000801000002"),
            Greets("02000000000000000000000008010000020000000801000003000000"),
            Silence,
        ],
        near: (0, 3),
        far: (3, 0),
    },
    Row {
        what: "an ACK is lost, and the next RESTART tells its count",
        near_read: [
            Greets("01000000000000000000000090010000010000"),
            Greets("020000000100000000000000"),
            Silence,
        ],
        far_read: [
            Greets("0100000000000000000000000801000001000000"),
            Greets("020000000000000000000000"),
            Silence,
        ],
        near: (0, 1),
        far: (1, 0),
    },
    Row {
        what: "two connections without a reply",
        near_read: [Silence, Silence, Greets("030000000000000000000000")],
        far_read: [
            Greets("010000000000000000000000"),
            Cut("11040000001122334455"),
            Greets("0300000000000000000000000801000001000000"),
        ],
        near: (0, 0),
        far: (1, 0),
    },
    Row {
        what: "a connection is cut in RESTART",
        near_read: [
            Greets("010000000000000000000000900100000100000000000000"),
            Cut(GREETS),
            Greets("030000000100000000000000"),
        ],
        far_read: [
            Greets("0100000000000000000000000801000001000000"),
            Silence,
            Greets("0300000000000000000000000801000002000000"),
        ],
        near: (0, 1),
        far: (2, 0),
    },
    Row {
        what: "both directions, and a frame that was sent twice but came once",
        near_read: [
            Greets("01000000000000000000000008010000ffffffff900100000100000000000000"),
            Greets("0200000001000000000000"),
            Greets("03000000010000000000000008010000feffffff900100000200000000000000"),
        ],
        far_read: [
            Greets("0100000000000000000000000801000001000000"),
            Silence,
            Greets("0300000001000000000000000801000002000000900100000200000000000000"),
        ],
        near: (2, 2),
        far: (2, 2),
    },
    Row {
        what: "bytes behind a fault are not read",
        near_read: [
            Greets(
                "01000000000000000000000090010000010000000000000000000000900100000200000000000000",
            ),
            Silence,
            Silence,
        ],
        far_read: [
            Greets("0100000000000000000000000801000001000000010000000801000002000000"),
            Silence,
            Silence,
        ],
        near: (0, 1),
        far: (1, 0),
    },
];

#[test]
fn broken_connections(rt: HostRuntime) {
    for row in &ROWS {
        assert_eq!(rt;
            heard_on_three(rt.alloc(), &row.near_read),
            Some(row.near),
            "near: {}",
            row.what
        );
        assert_eq!(rt;
            heard_on_three(rt.alloc(), &row.far_read),
            Some(row.far),
            "far: {}",
            row.what
        );
    }
}
