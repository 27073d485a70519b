//! The bytes that are left of a frame that is made anew on each connection.

ghost use Rattle.std.specs.Prelude.{◌≡◌, ◌≤◌, ◌==◌, length, drop};
ghost use Rattle.transfer_frames.specs.declared.frame.Frame.TheVariants.{Ack};
ghost use Rattle.transfer_frames.specs.Grammar.{IsReply, spelling};

use std::marker::Model;
use transfer_frames::{Frame, put_small};

/// What is still to be written of a RESTART or an ACK, which contracts see as these bytes.
#[derive(Drop)]
pub(crate) struct SmallFront {
    bytes: [u8; 64],
    // The bytes from `from` to before `end` are those that are left.
    from: usize,
    end: usize,
}

impl Model for SmallFront {
    ghost use Rattle.std.specs.Prelude.{ℕ, ◌≤◌, List, take, drop};

    ghost Value = { List ℕ };

    ghost view = { λ front. drop front.from (take front.end front.bytes) };

    ghost invariant = { λ front. (front.from ≤ front.end) × (front.end ≤ 64) };
}

impl SmallFront {
    /// All bytes of a RESTART or an ACK. Takes no memory.
    pub(crate) fn new(frame: &Frame) -> SmallFront
        requires { IsReply frame.now }
        ensures { result ≡ spelling frame.now }
    {
        let mut bytes = [0; 64];
        let end = put_small(frame, &mut bytes);
        SmallFront {
            bytes,
            from: 0,
            end,
        }
    }

    /// All bytes of an ACK of this count. Takes no memory.
    pub(crate) fn ack(count: u64) -> SmallFront
        ensures { result ≡ spelling (Ack count) }
    {
        SmallFront::new(&Frame::Ack { count })
    }

    /// The bytes that are left.
    pub(crate) fn as_slice(&self) -> &[u8]
        ensures { result.now ≡ self.now }
    {
        &self.bytes[self.from..self.end]
    }

    /// Whether none is left.
    pub(crate) fn is_empty(&self) -> bool
        ensures { result ≡ (length self.now == 0) }
    {
        self.from == self.end
    }

    /// The first so many bytes are written.
    pub(crate) fn give(&mut self, count: usize)
        requires { count ≤ length self.old }
        ensures { self.new ≡ drop count self.old }
    {
        self.from += count;
    }
}
