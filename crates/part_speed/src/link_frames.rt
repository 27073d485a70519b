//! Frames of the link: kept until they are acknowledged, and judged by counts.

ghost use Rattle.std.specs.Prelude.{IsSome};

use ack_ring::Ring;
use reconnect::Counts;
use std::alloc::{AllocError, Global};
use transfer_frames::LARGEST_FRAME;
use wl_wire::Bytes;

const TOKEN: [u8; 16] = [7; 16];

// How many frames are made before the first of them is acknowledged.
const AHEAD: u64 = 64;

/// Makes so many frames of this many bytes, reads each in the ring and acknowledges all but the last
/// few, and answers how many bytes were read; 0 where a frame can't have so many.
pub fn bytes_in_ring(alloc: Global, bytes: u32, times: u32) -> Result<u64, AllocError> {
    if bytes > LARGEST_FRAME {
        return Ok(0);
    }
    let frame = Bytes::from_vec(vec![in alloc; 7u8; bytes as usize]?);
    let mut ring = Ring::new(alloc)?;
    let mut read: u64 = 0;
    for _ in 0..times {
        read = read.wrapping_add(make_and_read(&mut ring, frame.clone()?));
    }
    Ok(read)
}

// Keeps a frame, and answers how many bytes of it are read there.
fn make_and_read(ring: &mut Ring, frame: Bytes) -> u64 {
    let index = ring.made();
    if index >= 1 << 60 || ring.room() == 0 || frame.len() > LARGEST_FRAME as usize {
        return 0;
    }
    ring.push(frame);
    let read = ring.at(index).len() as u64;
    let oldest = ring.acknowledged();
    if index - oldest >= AHEAD {
        ring.ack(oldest + 1);
    }
    read
}

/// Judges RESTART and so many counted frames on each of so many connections, with an ACK behind
/// each, and answers how many were accepted.
pub fn frames_accepted(alloc: Global, frames: u32, times: u32) -> Result<u64, AllocError> {
    let ring = Ring::new(alloc)?;
    let mut counts = Counts::new(TOKEN);
    for connection in 0..times {
        let _greeting = counts.greet(connection);
        let _judged = counts.on_restart(TOKEN, connection, 0, &ring);
        accept_frames(&mut counts, &ring, frames);
    }
    Ok(counts.accepted())
}

// Judges so many counted frames on the connection that was begun, with an ACK behind each.
fn accept_frames(counts: &mut Counts, ring: &Ring, frames: u32)
    requires { IsSome counts.old.connection }
{
    for _ in 0..frames {
        let _judged = counts.on_counted(false);
        let _told = counts.on_ack(0, ring);
    }
}
