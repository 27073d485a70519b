//! Bytes that go through a line, and plain copies of as many.

ghost use Rattle.std.specs.Prelude.{◌≡◌, ◌<◌, false, length};

use link_ends::{
    Dial, DialPair, Dialled, Link, LinkKind, LinkRead, LinkWrite, MemoryDial, MemoryDials,
};
use std::alloc::{AllocError, Global};
use std::sync::Wait;
use std::thread;
use std::thread::Threads;

/// Writes at least so many bytes in pieces of this length into a line and reads them by another
/// thread, and answers how many came.
pub fn carried<R: Threads + Wait + Clone + Send + Sync>(
    rt: &R,
    alloc: Global,
    piece: u32,
    total: u64,
) -> Result<u64, AllocError>
    requires { 0 < piece }
{
    let mut pair = MemoryDials::new(rt.clone()?, alloc);
    let Ok((near, far)) = pair.open(LinkKind::Memory, &[]) else {
        return Err(AllocError);
    };
    let out = vec![in alloc; 7u8; piece as usize]?;
    let mut back = vec![in alloc; 0u8; piece as usize]?;
    let (_, came) = thread::join(
        rt,
        move ||
            requires { near.has_left ≡ false }
        { send(rt, near, out.as_slice(), total) },
        move || -> u64
            requires { far.has_left ≡ false }
        { receive(rt, far, back.as_mut_slice()) },
    );
    Ok(came)
}

// Dials, and writes the piece over and over.
fn send<R: Wait + Clone>(rt: &R, dial: MemoryDial<R>, piece: &[u8], total: u64)
    requires { dial.has_left ≡ false }
{
    let mut dial = dial;
    let Dialled::Link { mut link, .. } = dial.dial(false) else {
        return;
    };
    let mut sent = 0u64;
    for _ in rt.forever() {
        if sent >= total || piece.is_empty() {
            return;
        }
        match link.write(piece) {
            LinkWrite::Bytes(count) => sent = sent.saturating_add(count as u64),
            LinkWrite::Again => thread::yield_now(),
            LinkWrite::Failed => return,
        }
    }
}

// Dials, and reads to the end.
fn receive<R: Wait + Clone>(rt: &R, dial: MemoryDial<R>, piece: &mut [u8]) -> u64
    requires { dial.has_left ≡ false }
{
    let mut dial = dial;
    let Dialled::Link { mut link, .. } = dial.dial(false) else {
        return 0;
    };
    let mut came = 0u64;
    for _ in rt.forever() {
        if piece.is_empty() {
            return came;
        }
        match link.read(piece) {
            LinkRead::Bytes(count) => came = came.saturating_add(count as u64),
            LinkRead::Again => thread::yield_now(),
            LinkRead::Ended | LinkRead::Failed => return came,
        }
    }
    came
}

/// Copies pieces of this length one after another until so many bytes are copied, and answers how
/// many were.
pub fn copied(alloc: Global, piece: u32, total: u64) -> Result<u64, AllocError>
    requires { 0 < piece }
{
    let mut from = vec![in alloc; 7u8; piece as usize]?;
    let mut to = vec![in alloc; 0u8; piece as usize]?;
    let mut sum = 0u64;
    for time in 0..total / u64::from(piece) {
        let place = (time % u64::from(piece)) as usize;
        from[place] = 7;
        to.as_mut_slice().copy_from_slice(from.as_slice());
        sum = sum.wrapping_add(u64::from(to[place]));
    }
    Ok((sum / 7).wrapping_mul(u64::from(piece)))
}
