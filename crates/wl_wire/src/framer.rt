//! The reader that cuts a stream of bytes into messages, in whatever pieces it is fed.

ghost use Rattle.std.specs.Prelude.{◌≡◌, ◌↔◌, [], ◌++◌, IsTrue, Ok, None, IfOk, IfSome, OnOk, OnErr};
ghost use Rattle.wl_wire.specs.Wire.{IsMessage, NoMessage, first};
ghost use Rattle.wl_wire.specs.Framing.{Answers, Stands, given};

use crate::faults::MessageFault;
use crate::front::message_size;
use crate::lists::Bytes;
use crate::message::Message;
use plain_lists::ByteQueue;
use std::alloc::{AllocError, Global};
use std::marker::Model;

/// A reader of messages, which contracts see as the bytes that it was fed and hasn't given yet.
#[derive(Drop)]
pub struct Framer {
    unread: ByteQueue,
    alloc: Global,
}

impl Model for Framer {
    ghost use Rattle.std.specs.Prelude.{List, ℕ};

    ghost Value = { List ℕ };

    ghost view = { λ framer. framer.unread };
}

impl Framer {
    /// A reader that was fed nothing. Takes no memory.
    pub fn new(alloc: Global) -> Framer
        ensures { result ≡ [] }
    {
        Framer {
            unread: ByteQueue::new(alloc),
            alloc,
        }
    }

    /// Takes a piece of the stream, of any length, also behind a fault.
    ///
    /// # Errors
    /// Only where memory runs out; the bytes held are then as before.
    pub fn feed(&mut self, piece: &[u8]) -> Result<(), AllocError>
        ensures ok { OnOk result (self.new ≡ self.old ++ piece.now) }
        ensures err { OnErr result (self.new ≡ self.old) }
    {
        self.unread.feed(piece)
    }

    /// Whether a whole message or a size at fault stands at the front. Takes no memory and gives
    /// nothing.
    pub fn stands(&self) -> bool
        ensures { IsTrue result ↔ Stands (first self.now) }
    {
        !matches!(message_size(self.unread.as_slice()), Ok(None))
    }

    /// Gives the message at the front, or None where bytes of it are still to come.
    ///
    /// # Errors
    /// `SizeSmall` or `SizeOdd` where the header at the front has such a size, again at each later
    /// call; `Memory` where memory runs out. The bytes held are then as before.
    pub fn next_message(&mut self) -> Result<Option<Message>, MessageFault>
        ensures exact { Answers result (first self.old) }
        ensures rest { self.old ≡ given result ++ self.new }
        ensures whole { IfOk result (λ front. IfSome front IsMessage) }
        ensures stops { result ≡ Ok None → NoMessage self.new }
    {
        let front = self.unread.as_slice();
        match message_size(front)? {
            None => Ok(None),
            Some(size) => {
                let bytes = Bytes::from_slice(self.alloc, front.split_at(size).0)?;
                self.unread.give(size);
                Ok(Some(Message::from_whole(bytes)))
            }
        }
    }
}

#[cfg(test)]
mod tests;
