//! A queue of bytes that grows at its end and is given away at its front.

ghost use Rattle.std.specs.Prelude.{◌≡◌, ◌≤◌, ◌↔◌, [], ◌++◌, length, drop, IsTrue, OnOk, OnErr};

use std::alloc::{AllocError, Global};
use std::marker::Model;

/// Bytes that were fed in pieces and are not given yet, which contracts see as the list of these
/// bytes.
///
/// `give` and `as_slice` take a fixed time. `feed` takes the time of its piece, and at times moves
/// the bytes that are held: only where at least as many were given since they last moved. So a byte
/// that is given pays for one move, and all the calls together take a time that is linear in the
/// bytes that were fed.
#[derive(Drop)]
pub struct ByteQueue {
    held: Vec<u8>,
    // How many bytes at the front of `held` were given.
    given: usize,
}

impl Model for ByteQueue {
    ghost use Rattle.std.specs.Prelude.{List, ℕ, ◌≤◌, length, drop};

    ghost Value = { List ℕ };

    ghost view = { λ queue. drop queue.given queue.held.items };

    ghost invariant = { λ queue. queue.given ≤ length queue.held.items };
}

impl ByteQueue {
    /// No bytes. Takes no memory.
    pub fn new(alloc: Global) -> ByteQueue
        ensures { result ≡ [] }
    {
        ByteQueue {
            held: Vec::new(alloc),
            given: 0,
        }
    }

    /// The bytes of a vector. Takes no memory.
    pub fn from_vec(bytes: Vec<u8>) -> ByteQueue
        ensures { result ≡ bytes.items }
    {
        ByteQueue {
            held: bytes,
            given: 0,
        }
    }

    /// Adds a piece of any length at the end.
    ///
    /// # Errors
    /// Only where memory runs out; the bytes are then as before.
    pub fn feed(&mut self, piece: &[u8]) -> Result<(), AllocError>
        ensures ok { OnOk result (self.new ≡ self.old ++ piece.now) }
        ensures err { OnErr result (self.new ≡ self.old) }
    {
        self.drop_given();
        self.held.extend_from_slice(piece)
    }

    /// Drops the bytes that were given, once they are at least as many as those that are left.
    fn drop_given(&mut self)
        ensures { self.new ≡ self.old }
    {
        if self.held.len() - self.given <= self.given {
            self.held.drain(..self.given);
            self.given = 0;
        }
    }

    /// The bytes as a slice.
    pub fn as_slice(&self) -> &[u8]
        ensures { result.now ≡ self.now }
    {
        self.held.as_slice().split_at(self.given).1
    }

    /// How many bytes there are.
    pub fn len(&self) -> usize
        ensures { result ≡ length self.now }
    {
        self.held.len() - self.given
    }

    /// Whether there is no byte.
    pub fn is_empty(&self) -> bool
        ensures { IsTrue result ↔ (self.now ≡ []) }
    {
        self.as_slice().is_empty()
    }

    /// Gives the first so many bytes away.
    pub fn give(&mut self, count: usize)
        requires { count ≤ length self.old }
        ensures { self.new ≡ drop count self.old }
    {
        self.given += count;
    }
}
