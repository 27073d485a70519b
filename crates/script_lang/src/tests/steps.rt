//! Each form of line, with the ends of its ranges.

use super::*;
use std::test::Fail;
use wl_wire::Bytes;
use wp_outside::{Direction, Side};

#[test]
fn files(rt: HostRuntime) {
    let near = Side::Near;
    let far = Side::Far;
    let rows = [
        (
            "app file 1 64",
            StepKind::File {
                peer: near,
                number: 1,
                size: 64,
            },
        ),
        (
            "app file 2147483647 67108864",
            StepKind::File {
                peer: near,
                number: 2_147_483_647,
                size: 67_108_864,
            },
        ),
        (
            "comp file -1 128",
            StepKind::File {
                peer: far,
                number: -1,
                size: 128,
            },
        ),
        (
            "comp file -2147483647 64",
            StepKind::File {
                peer: far,
                number: -2_147_483_647,
                size: 64,
            },
        ),
        (
            "app file 7 64\napp grow 7 128",
            StepKind::Grow {
                peer: near,
                number: 7,
                size: 128,
            },
        ),
        (
            "comp file -7 64\ncomp grow -7 67108864",
            StepKind::Grow {
                peer: far,
                number: -7,
                size: 67_108_864,
            },
        ),
    ];
    for (script, what) in rows {
        assert_eq!(rt; asks(rt.alloc(), script, what), true, "{script}");
    }
}

#[test]
fn fills(rt: HostRuntime) {
    let near = Side::Near;
    let rows = [
        (
            "app file 1 64\napp fill 1 0 8 0",
            StepKind::Fill {
                peer: near,
                number: 1,
                first: 0,
                count: 8,
                value: 0,
            },
        ),
        (
            "app file 1 64\napp fill 1 7 1 18446744073709551615",
            StepKind::Fill {
                peer: near,
                number: 1,
                first: 7,
                count: 1,
                value: u64::MAX,
            },
        ),
        (
            "app file 1 64\napp grow 1 192\napp fill 1 1 23 10",
            StepKind::Fill {
                peer: near,
                number: 1,
                first: 1,
                count: 23,
                value: 10,
            },
        ),
    ];
    for (script, what) in rows {
        assert_eq!(rt; asks(rt.alloc(), script, what), true, "{script}");
    }
}

#[test]
fn pipes(rt: HostRuntime) {
    let near = Side::Near;
    let far = Side::Far;
    let rows = [
        (
            "app pipe 1",
            StepKind::Pipe {
                peer: near,
                number: 1,
            },
        ),
        (
            "comp pipe -9",
            StepKind::Pipe {
                peer: far,
                number: -9,
            },
        ),
        (
            "app pipe 3\napp give 3",
            StepKind::Give {
                peer: near,
                number: 3,
            },
        ),
        (
            "app file 3 64\napp give 3",
            StepKind::Give {
                peer: near,
                number: 3,
            },
        ),
        (
            "app pipe 3\napp shut 3",
            StepKind::Shut {
                peer: near,
                number: 3,
            },
        ),
        (
            "app end 2147483647",
            StepKind::End {
                peer: near,
                pipe: 2_147_483_647,
            },
        ),
        (
            "comp end -2147483647",
            StepKind::End {
                peer: far,
                pipe: -2_147_483_647,
            },
        ),
        (
            "app await 0",
            StepKind::Await {
                peer: near,
                count: 0,
            },
        ),
        (
            "comp await 1000000",
            StepKind::Await {
                peer: far,
                count: 1_000_000,
            },
        ),
    ];
    for (script, what) in rows {
        assert_eq!(rt; asks(rt.alloc(), script, what), true, "{script}");
    }
}

#[test]
fn bytes(rt: HostRuntime) -> Result<(), Fail> {
    let alloc = rt.alloc();
    let some = Bytes::from_slice(alloc, &[0x00, 0x9a, 0xff])?;
    assert_eq!(rt;
        asks(
            alloc,
            "app hex 009aff",
            StepKind::Hex {
                peer: Side::Near,
                bytes: some
            }
        ),
        true
    );
    let one = Bytes::from_slice(alloc, &[0x0a])?;
    assert_eq!(rt;
        asks(
            alloc,
            "comp hex 0a",
            StepKind::Hex {
                peer: Side::Far,
                bytes: one
            }
        ),
        true
    );
    let put = Bytes::from_slice(alloc, &[0x68, 0x69])?;
    assert_eq!(rt;
        asks(
            alloc,
            "comp put 1 6869",
            StepKind::Put {
                peer: Side::Far,
                pipe: 1,
                bytes: put
            }
        ),
        true
    );
    Ok(())
}

#[test]
fn moves(rt: HostRuntime) {
    let up = Direction::Up;
    let down = Direction::Down;
    let rows = [
        (
            "take app 1",
            StepKind::Take {
                peer: Side::Near,
                bytes: 1,
            },
        ),
        (
            "take comp 1000000000",
            StepKind::Take {
                peer: Side::Far,
                bytes: 1_000_000_000,
            },
        ),
        ("load 1", StepKind::Load { words: 1 }),
        ("send up 1", StepKind::Send { dir: up, bytes: 1 }),
        (
            "send down 1000000000",
            StepKind::Send {
                dir: down,
                bytes: 1_000_000_000,
            },
        ),
        ("recv up 8", StepKind::Recv { dir: up, bytes: 8 }),
        (
            "recv down 9",
            StepKind::Recv {
                dir: down,
                bytes: 9,
            },
        ),
        ("up 1", StepKind::Both { dir: up, bytes: 1 }),
        (
            "down 1000000000",
            StepKind::Both {
                dir: down,
                bytes: 1_000_000_000,
            },
        ),
    ];
    for (script, what) in rows {
        assert_eq!(rt; asks(rt.alloc(), script, what), true, "{script}");
    }
}

#[test]
fn connections(rt: HostRuntime) {
    let rows = [
        ("connect", StepKind::Connect),
        ("break", StepKind::Break),
        (
            "spoil up 0 00",
            StepKind::Spoil {
                dir: Direction::Up,
                offset: 0,
                byte: 0,
            },
        ),
        (
            "spoil down 1000000000 f0",
            StepKind::Spoil {
                dir: Direction::Down,
                offset: 1_000_000_000,
                byte: 240,
            },
        ),
        (
            "cut up 0",
            StepKind::Cut {
                dir: Direction::Up,
                bytes: 0,
            },
        ),
        (
            "cut down 1000000000",
            StepKind::Cut {
                dir: Direction::Down,
                bytes: 1_000_000_000,
            },
        ),
        ("close app", StepKind::Close { peer: Side::Near }),
        ("close comp", StepKind::Close { peer: Side::Far }),
        ("settle", StepKind::Settle),
        ("drain 1", StepKind::Drain { bytes: 1 }),
        ("stop", StepKind::Stop),
        (
            "stop\ndrain 1000000000",
            StepKind::Drain {
                bytes: 1_000_000_000,
            },
        ),
    ];
    for (script, what) in rows {
        assert_eq!(rt; asks(rt.alloc(), script, what), true, "{script}");
    }
}
