//! A line, and the stream of bytes that the tests send through it.

use crate::{Link, LinkRead, LinkWrite};
use std::thread;

/// How often a test tries again before it gives up.
const TRIES: u32 = 50_000_000;

/// What a step of a test saw.
#[derive(Clone, Copy, PartialEq, Eq)]
pub enum Answer {
    /// A line of this number.
    Line,
    /// The other side has gone.
    Gone,
    /// So many bytes.
    Bytes,
    /// This byte, which isn't the stream's.
    Other,
    /// No byte or no room now.
    Again,
    /// The end.
    Ended,
    /// A failure.
    Failed,
    /// Nothing that is to be told.
    Done,
    /// The step doesn't fit, or memory ran out.
    Unfit,
}

/// An answer with its number, 0 where there is none to tell.
pub type Seen = (Answer, u64);

/// One end of a line, with the places of the stream that it has come to.
#[derive(Drop)]
pub struct Stream<K: Link + Drop> {
    pub line: K,
    pub sent: u64,
    pub got: u64,
}

impl<K: Link + Drop> Stream<K> {
    /// Writes the stream's next bytes, as many as the piece is long.
    pub fn write(&mut self, piece: &mut [u8]) -> Seen {
        fill(piece, self.sent);
        let (answer, count) = put(&mut self.line, piece);
        self.sent = self.sent.saturating_add(count);
        (answer, count)
    }

    /// Reads once, and compares what came.
    pub fn read(&mut self, piece: &mut [u8]) -> Seen {
        let (answer, count) = take(&mut self.line, piece);
        let other = first_other(piece, count, self.got);
        self.got = self.got.saturating_add(count);
        match other {
            Some(byte) => (Answer::Other, u64::from(byte)),
            None => (answer, count),
        }
    }

    /// Writes until so many bytes of the stream were taken.
    pub fn write_all(&mut self, piece: &mut [u8], total: u64) -> Seen {
        for _ in 0..TRIES {
            let left = total.saturating_sub(self.sent);
            if left == 0 {
                return (Answer::Bytes, self.sent);
            }
            let count = left.min(piece.len() as u64) as usize;
            let (answer, _) = match piece.get_mut(..count) {
                Some(front) => self.write(front),
                None => (Answer::Unfit, 0),
            };
            match answer {
                Answer::Bytes => {}
                Answer::Again => thread::yield_now(),
                _ => return (answer, self.sent),
            }
        }
        (Answer::Again, self.sent)
    }

    /// Reads until no byte comes, and answers how many came.
    pub fn gather(&mut self, piece: &mut [u8]) -> Seen {
        for _ in 0..TRIES {
            match self.read(piece) {
                (Answer::Bytes, _) => {}
                (Answer::Again | Answer::Ended, _) => return (Answer::Bytes, self.got),
                seen => return seen,
            }
        }
        (Answer::Again, self.got)
    }

    /// Reads until the line ends, and answers how many bytes came.
    pub fn read_all(&mut self, piece: &mut [u8]) -> Seen {
        for _ in 0..TRIES {
            match self.read(piece) {
                (Answer::Bytes, _) => {}
                (Answer::Again, _) => thread::yield_now(),
                (Answer::Ended, _) => return (Answer::Bytes, self.got),
                seen => return seen,
            }
        }
        (Answer::Again, self.got)
    }
}

// The byte at a place of the stream.
fn byte_at(start: u64, index: usize) -> u8 {
    let [low, middle, high, ..] = start.wrapping_add(index as u64).to_le_bytes();
    low ^ middle ^ high
}

// Fills a piece with the stream's bytes from a place on.
fn fill(piece: &mut [u8], start: u64) {
    for (index, byte) in piece.iter_mut().enumerate() {
        *byte = byte_at(start, index);
    }
}

// The first of so many bytes of a piece that isn't the stream's from a place on.
fn first_other(piece: &[u8], count: u64, start: u64) -> Option<u8> {
    for (index, byte) in piece.iter().enumerate() {
        if index as u64 >= count {
            return None;
        }
        if *byte != byte_at(start, index) {
            return Some(*byte);
        }
    }
    None
}

// Writes once.
fn put<K: Link>(line: &mut K, piece: &[u8]) -> Seen {
    if piece.is_empty() {
        return (Answer::Unfit, 0);
    }
    match line.write(piece) {
        LinkWrite::Bytes(count) => (Answer::Bytes, count as u64),
        LinkWrite::Again => (Answer::Again, 0),
        LinkWrite::Failed => (Answer::Failed, 0),
    }
}

// Reads once.
fn take<K: Link>(line: &mut K, piece: &mut [u8]) -> Seen {
    if piece.is_empty() {
        return (Answer::Unfit, 0);
    }
    match line.read(piece) {
        LinkRead::Bytes(count) => (Answer::Bytes, count as u64),
        LinkRead::Again => (Answer::Again, 0),
        LinkRead::Ended => (Answer::Ended, 0),
        LinkRead::Failed => (Answer::Failed, 0),
    }
}
