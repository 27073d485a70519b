//! The calls of a proxy that ask for something, each behind the test that it offers for that.

use crate::trouble::Trouble;
use crate::words::bytes_of;
use copy_workers::{CopyDone, copy_one};
use half_model::PeerIn;
use handle_table::Handle;
use proxy_trail::Trail;
use shm_pools::{FileEyes, FileEyesList, Note};
use std::alloc::Global;
use wl_wire::Bytes;
use wp_outside::{HandleKind, PipeItem};

// The most bytes that a peer puts on its wire at once.
const MOST_PIECE: usize = 65_536;

/// The peer puts bytes of messages on its wire.
pub fn say(trail: &mut Trail, bytes: Bytes) -> Result<(), Trouble> {
    if !trail.wants_peer() || bytes.is_empty() || bytes.len() > MOST_PIECE {
        return Err(Trouble::NotNow);
    }
    trail.feed_peer(PeerIn::Bytes(bytes))?;
    Ok(())
}

/// The peer puts the bytes of a row of words on its wire, so many times in one piece.
pub fn say_words(alloc: Global, trail: &mut Trail, times: u32, words: &str) -> Result<(), Trouble> {
    say(trail, bytes_of(alloc, times, words)?)
}

/// The peer puts a handle on its wire.
pub fn hand(trail: &mut Trail, number: i32, kind: HandleKind) -> Result<(), Trouble> {
    if !trail.wants_peer() {
        return Err(Trouble::NotNow);
    }
    trail.feed_peer(PeerIn::Handle(Handle { number, kind }))?;
    Ok(())
}

/// The peer writes to a pipe.
pub fn write_pipe(trail: &mut Trail, pipe: i32, bytes: Bytes) -> Result<(), Trouble> {
    if !trail.wants_peer() || bytes.is_empty() || bytes.len() > MOST_PIECE {
        return Err(Trouble::NotNow);
    }
    trail.feed_peer(PeerIn::Pipe(PipeItem::Bytes { pipe, bytes }))?;
    Ok(())
}

/// The peer closes the write end of a pipe.
pub fn end_pipe(trail: &mut Trail, pipe: i32) -> Result<(), Trouble> {
    if !trail.wants_peer() {
        return Err(Trouble::NotNow);
    }
    trail.feed_peer(PeerIn::Pipe(PipeItem::End { pipe }))?;
    Ok(())
}

/// The peer closes the reading end of a pipe.
pub fn shut_pipe(trail: &mut Trail, pipe: i32) -> Result<(), Trouble> {
    if !trail.wants_peer() {
        return Err(Trouble::NotNow);
    }
    trail.feed_peer(PeerIn::Pipe(PipeItem::Shut { pipe }))?;
    Ok(())
}

/// The peer notes the words of one file.
pub fn note(alloc: Global, trail: &mut Trail, eyes: FileEyes) -> Result<(), Trouble> {
    let mut files = FileEyesList::new(alloc);
    files.push(eyes)?;
    put_note(trail, Note { files })
}

fn put_note(trail: &mut Trail, note: Note) -> Result<(), Trouble> {
    if !trail.wants_peer() {
        return Err(Trouble::NotNow);
    }
    trail.feed_peer(PeerIn::Note(note))?;
    Ok(())
}

/// All copies that wait are made, and come back.
pub fn copy_all(trail: &mut Trail) -> Result<(), Trouble> {
    for _ in 0..u64::MAX {
        match trail.next_copy() {
            Some(job) => hand_back(trail, copy_one(job))?,
            None => break,
        }
    }
    Ok(())
}

/// A copy comes back.
pub fn hand_back(trail: &mut Trail, done: CopyDone) -> Result<(), Trouble> {
    if !trail.awaits(&done) {
        return Err(Trouble::NotNow);
    }
    trail.copy_done(done)?;
    Ok(())
}

/// A connection comes up.
pub fn connect(trail: &mut Trail, connection: u32) -> Result<(), Trouble> {
    if !trail.may_connect(connection) {
        return Err(Trouble::NotNow);
    }
    trail.link_up(connection)?;
    Ok(())
}

/// A piece comes on the connection.
pub fn read(trail: &mut Trail, piece: &[u8]) -> Result<(), Trouble> {
    trail.feed_link(piece)?;
    Ok(())
}

/// The bytes of a row of words come as one piece.
pub fn read_words(alloc: Global, trail: &mut Trail, words: &str) -> Result<(), Trouble> {
    let piece = bytes_of(alloc, 1, words)?;
    read(trail, piece.as_slice())
}

/// The bytes of a row of words come in pieces of at most so many bytes.
pub fn read_pieces(
    alloc: Global,
    trail: &mut Trail,
    most: u32,
    words: &str,
) -> Result<(), Trouble> {
    let bytes = bytes_of(alloc, 1, words)?;
    for piece in bytes.as_slice().chunks((most as usize).max(1)) {
        read(trail, piece)?;
    }
    Ok(())
}

/// So many of the bytes that were lent are written.
pub fn write(trail: &mut Trail, count: usize) -> Result<(), Trouble> {
    if count > trail.room() {
        return Err(Trouble::NotNow);
    }
    trail.link_sent(count);
    Ok(())
}

/// The proxy is asked to close.
pub fn close(trail: &mut Trail, reason: u32) -> Result<(), Trouble> {
    trail.close(reason)?;
    Ok(())
}
