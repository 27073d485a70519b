//! A ring that is filled, acknowledged in steps and wrapped round its end.

use super::*;
use std::alloc::{AllocError, Global};
use std::test::*;
use wl_wire::Bytes;

// The frame of an index in these tests: the index one to three times over, so 8, 16 or 24 bytes.
fn frame(alloc: Global, index: u64) -> Result<Bytes, AllocError> {
    let mut bytes = Bytes::new(alloc);
    for _ in 0..index % 3 + 1 {
        bytes.append(&index.to_le_bytes())?;
    }
    Ok(bytes)
}

// Pushes a frame where the ring may take one more, and tells whether it did.
fn push_if_room(ring: &mut Ring, frame: Bytes) -> bool {
    let may = ring.room() > 0 && ring.made() < 1 << 60 && frame.len() <= 1_048_576;
    if may {
        ring.push(frame);
    }
    may
}

// Acknowledges as many frames as that where the ring may, and tells whether it did.
fn ack_if_made(ring: &mut Ring, count: u64) -> bool {
    let may = ring.acknowledged() <= count && count <= ring.made();
    if may {
        ring.ack(count);
    }
    may
}

// Whether the frame of an index is kept as it was made.
fn keeps(alloc: Global, ring: &Ring, index: u64) -> Result<bool, AllocError> {
    let wanted = frame(alloc, index)?;
    Ok(ring.acknowledged() <= index && index < ring.made() && ring.at(index) == wanted.as_slice())
}

// How many frames are acknowledged and then made, and what the ring says behind that.
struct Row {
    what: &'static str,
    acknowledged: u64,
    made: u64,
    room: usize,
    held: u64,
}

const ROWS: [Row; 8] = [
    Row {
        what: "new",
        acknowledged: 0,
        made: 0,
        room: 8192,
        held: 0,
    },
    Row {
        what: "two made",
        acknowledged: 0,
        made: 2,
        room: 8190,
        held: 24,
    },
    Row {
        what: "full",
        acknowledged: 0,
        made: 8192,
        room: 0,
        held: 131_064,
    },
    Row {
        what: "one acknowledged",
        acknowledged: 1,
        made: 8192,
        room: 1,
        held: 131_056,
    },
    Row {
        what: "the same told again",
        acknowledged: 1,
        made: 8192,
        room: 1,
        held: 131_056,
    },
    Row {
        what: "many acknowledged",
        acknowledged: 5000,
        made: 8192,
        room: 5000,
        held: 51_072,
    },
    Row {
        what: "full and wrapped",
        acknowledged: 5000,
        made: 13_192,
        room: 0,
        held: 131_072,
    },
    Row {
        what: "all acknowledged",
        acknowledged: 13_192,
        made: 13_192,
        room: 8192,
        held: 0,
    },
];

#[test]
fn kept_frames(rt: HostRuntime) -> Result<(), Fail> {
    let mut ring = Ring::new(rt.alloc())?;
    for row in &ROWS {
        assert!(rt; ack_if_made(&mut ring, row.acknowledged), "{}", row.what);
        for index in ring.made()..row.made {
            assert!(rt;
                push_if_room(&mut ring, frame(rt.alloc(), index)?),
                "{}",
                row.what
            );
        }
        assert_eq!(rt; ring.acknowledged(), row.acknowledged, "{}", row.what);
        assert_eq!(rt; ring.made(), row.made, "{}", row.what);
        assert_eq!(rt; ring.room(), row.room, "{}", row.what);
        assert_eq!(rt; ring.held(), row.held, "{}", row.what);
        for index in row.acknowledged..row.made {
            assert!(rt; keeps(rt.alloc(), &ring, index)?, "{} at {index}", row.what);
        }
    }
    Ok(())
}
