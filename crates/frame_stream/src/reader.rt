//! The reader that takes a stream of bytes, in whatever pieces it comes, apart into frames.

ghost use Rattle.std.specs.Prelude.{◌≡◌, ◌+◌, ◌-◌, ◌^◌, List, [], ◌++◌, length, min, Ok, None, IfOk, IfSome, OnOk, OnErr};
ghost use Rattle.transfer_frames.specs.Grammar.{IsFrame};
ghost use Rattle.transfer_frames.specs.Front.{front, Answers, given};

use plain_lists::ByteQueue;
use std::alloc::{AllocError, Global};
use std::marker::Model;
use transfer_frames::{DecodeFault, Frame, first_frame};

/// A reader of frames, which contracts see as the bytes that it was fed and hasn't given yet, and
/// the place of the first of them in the stream.
#[derive(Drop)]
pub struct FrameReader {
    unread: ByteQueue,
    place: u64,
    alloc: Global,
}

impl Model for FrameReader {
    ghost use Rattle.std.specs.Prelude.{◌<◌, ◌^◌};
    ghost use Rattle.frame_stream.specs.Stream.{Stream};

    ghost Value = { Stream };

    ghost view = { λ reader. record { front = reader.unread; place = reader.place } };

    ghost invariant = { λ reader. reader.place < 2 ^ 64 };
}

impl FrameReader {
    /// A reader that was fed nothing. Takes no memory.
    pub fn new(alloc: Global) -> FrameReader
        ensures { result ≡ record { front = []; place = 0 } }
    {
        FrameReader {
            unread: ByteQueue::new(alloc),
            place: 0,
            alloc,
        }
    }

    /// How many bytes of the stream were given, those before the front; it stays at the greatest
    /// `u64`.
    pub fn place(&self) -> u64
        ensures { result ≡ self.now.place }
    {
        self.place
    }

    /// Takes a piece of the stream, of any length, also behind a fault.
    ///
    /// # Errors
    /// Only where memory runs out; nothing is changed then.
    pub fn feed(&mut self, piece: &[u8]) -> Result<(), AllocError>
        ensures ok { OnOk result
            (self.new ≡ record self.old { front = self.old.front ++ piece.now }) }
        ensures err { OnErr result (self.new ≡ self.old) }
    {
        self.unread.feed(piece)
    }

    /// Gives the frame at the front, or None where no whole frame stands there and its first word,
    /// if there, isn't at fault.
    ///
    /// # Errors
    /// `Frame` with the first fault at the front, again at each later call; `Memory` where a whole
    /// frame stands there and memory runs out. Nothing is changed then.
    pub fn next_frame(&mut self) -> Result<Option<Frame>, DecodeFault>
        ensures exact { Answers result (front self.old.front) }
        ensures rest { self.old.front ≡ given result ++ self.new.front }
        ensures place { self.new.place ≡ min (self.old.place + length (given result)) (2 ^ 64 - 1) }
        ensures whole { IfOk result (λ found. IfSome found IsFrame) }
        ensures none { result ≡ Ok None → self.new ≡ self.old }
        ensures err { OnErr result (self.new ≡ self.old) }
    {
        match first_frame(self.alloc, self.unread.as_slice())? {
            None => Ok(None),
            Some((frame, length)) => {
                self.unread.give(length);
                self.place = self.place.saturating_add(length as u64);
                Ok(Some(frame))
            }
        }
    }
}

#[cfg(test)]
mod tests;
