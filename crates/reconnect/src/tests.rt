//! The causes for which a connection refuses a frame, each by a row of a table.

ghost use Rattle.std.specs.Prelude.{IsSome};

use super::*;
use ack_ring::Ring;
use std::alloc::{AllocError, Global};
use std::process::Abort;
use std::test::*;
use transfer_frames::FrameCause::*;
use transfer_frames::FrameRole::{Counted, Greets, Tells};
use transfer_frames::{FrameCause, FrameRole, part_of};
use wl_wire::Bytes;

const TOKEN: [u8; 16] = *b"of this session.";

const OTHER: [u8; 16] = *b"of another one..";

// A ring that made 8 frames and keeps those behind the first 3.
fn ring_of_eight(alloc: Global) -> Result<Ring, AllocError> {
    let mut ring = Ring::new(alloc)?;
    for byte in 0..8u8 {
        make_frame(&mut ring, Bytes::from_slice(alloc, &[byte; 4])?);
    }
    if ring.acknowledged() <= 3 && 3 <= ring.made() {
        ring.ack(3);
    }
    Ok(ring)
}

// Pushes a frame where the ring may take one more.
fn make_frame(ring: &mut Ring, frame: Bytes) {
    if ring.room() > 0 && ring.made() < 8 && frame.len() <= 4 {
        ring.push(frame);
    }
}

// What stands in a row, a frame that is read there by its part on the connection, and the answer.
type Row = (&'static str, FrameRole, Result<(), FrameCause>);

const FRAME: FrameRole = Counted { closes: false };

const CLOSE: FrameRole = Counted { closes: true };

fn ack(count: u64) -> FrameRole {
    Tells { count }
}

fn restart(token: [u8; 16], connection: u32, received: u64) -> FrameRole {
    Greets {
        token,
        connection,
        received,
    }
}

// Judges a frame.
fn judge(counts: &mut Counts, ring: &Ring, part: FrameRole) -> Result<(), FrameCause>
    requires { IsSome counts.old.connection }
    ensures { IsSome counts.new.connection }
{
    match part {
        Counted { closes } => counts.on_counted(closes),
        Tells { count } => counts.on_ack(count, ring),
        Greets {
            token,
            connection,
            received,
        } => counts.on_restart(token, connection, received, ring),
    }
}

// Judges the frames of a table, one after another.
fn judge_all(rt: &impl Abort, counts: &mut Counts, ring: &Ring, rows: &[Row])
    requires { IsSome counts.old.connection }
    ensures { IsSome counts.new.connection }
{
    for (what, part, wanted) in rows {
        assert_eq!(rt; judge(counts, ring, *part), *wanted, "{what}");
    }
}

#[test]
fn before_restart(rt: HostRuntime) -> Result<(), Fail> {
    let ring = ring_of_eight(rt.alloc())?;
    let mut counts = Counts::new(TOKEN);
    let _greeting = counts.greet(2);
    let rows = [
        ("ACK first", ack(3), Err(RestartMissing)),
        ("a counted frame first", FRAME, Err(RestartMissing)),
        ("all of it wrong", restart(OTHER, 1, 9), Err(Token)),
        (
            "an earlier connection",
            restart(TOKEN, 1, 9),
            Err(Connection),
        ),
        (
            "fewer than acknowledged",
            restart(TOKEN, 2, 2),
            Err(RestartBehind),
        ),
        ("more than made", restart(TOKEN, 2, 9), Err(RestartAhead)),
        ("as many as made", restart(TOKEN, 2, 8), Ok(())),
        ("RESTART twice", restart(OTHER, 1, 9), Err(RestartAgain)),
    ];
    judge_all(&rt, &mut counts, &ring, &rows);
    assert_eq!(rt; counts.accepted(), 0);
    Ok(())
}

#[test]
fn behind_restart(rt: HostRuntime) -> Result<(), Fail> {
    let ring = ring_of_eight(rt.alloc())?;
    let mut counts = Counts::new(TOKEN);
    let _greeting = counts.greet(2);
    counts.on_restart(TOKEN, 2, 4, &ring)?;
    counts.sent_whole();
    counts.sent_whole();
    let rows = [
        ("fewer than acknowledged", ack(2), Err(AckBehind)),
        ("as many as acknowledged", ack(3), Ok(())),
        ("all that was sent", ack(6), Ok(())),
        ("made, but not sent", ack(7), Err(AckAhead)),
        ("a frame", FRAME, Ok(())),
        ("CLOSE", CLOSE, Ok(())),
        ("a frame behind CLOSE", FRAME, Err(AfterClose)),
        ("CLOSE twice", CLOSE, Err(AfterClose)),
        ("ACK behind CLOSE", ack(5), Ok(())),
    ];
    judge_all(&rt, &mut counts, &ring, &rows);
    assert_eq!(rt; counts.accepted(), 2);
    assert!(rt; counts.closed());
    Ok(())
}

#[test]
fn next_connection(rt: HostRuntime) -> Result<(), Fail> {
    let ring = ring_of_eight(rt.alloc())?;
    let mut counts = Counts::new(TOKEN);
    let _greeting = counts.greet(1);
    let rows = [
        ("RESTART", restart(TOKEN, 1, 8), Ok(())),
        ("CLOSE", CLOSE, Ok(())),
    ];
    judge_all(&rt, &mut counts, &ring, &rows);
    let greeting = counts.greet(2);
    assert_eq!(rt; part_of(&greeting), restart(TOKEN, 2, 1));
    let rows = [
        ("an answer of before", ack(8), Err(RestartMissing)),
        ("RESTART", restart(TOKEN, 2, 3), Ok(())),
        ("none sent yet", ack(4), Err(AckAhead)),
        ("a CLOSE of before", FRAME, Err(AfterClose)),
    ];
    judge_all(&rt, &mut counts, &ring, &rows);
    assert_eq!(rt; counts.refuses(), Some(AfterClose));
    assert_eq!(rt; counts.accepted(), 1);
    Ok(())
}

#[test]
fn as_many_as_can_be_counted(rt: HostRuntime) -> Result<(), Fail> {
    let ring = ring_of_eight(rt.alloc())?;
    let mut counts = Counts::all_counted(TOKEN);
    let greeting = counts.greet(1);
    assert_eq!(rt; part_of(&greeting), restart(TOKEN, 1, 1 << 60));
    let rows = [
        ("RESTART", restart(TOKEN, 1, 3), Ok(())),
        ("one more frame", FRAME, Err(CountSpent)),
        ("one more CLOSE", CLOSE, Err(CountSpent)),
        ("ACK", ack(3), Ok(())),
    ];
    judge_all(&rt, &mut counts, &ring, &rows);
    assert_eq!(rt; counts.accepted(), 1 << 60);
    Ok(())
}
