//! A whole message as its bytes.

ghost use Rattle.std.specs.Prelude.{◌≡◌, ◌==◌, ◌+◌, ◌≤◌, length};
ghost use Rattle.std.specs.Cmp.Lexicographic.{pointwise};
ghost use Rattle.std.specs.Cmp.Rules.{comparing};
ghost use Rattle.std.proofs.Common.{rules};
ghost use Rattle.wl_wire.specs.Wire.{IsMessage, object_of, opcode_of, word_at};

use crate::lists::Bytes;
use std::alloc::AllocError;
use std::marker::Model;

/// The most bytes that a message has: the greatest multiple of four that the header's 16 bits hold.
pub const LONGEST_MESSAGE: usize = 65_532;

/// A whole message of the Wayland protocol as its bytes, header included: 8 to 65,532 of them, a
/// multiple of four, as many as the size in its header says.
#[derive(Debug, Drop)]
pub struct Message {
    bytes: Bytes,
}

impl Model for Message {
    ghost use Rattle.std.specs.Prelude.{List, ℕ};
    ghost use Rattle.wl_wire.specs.Wire.{IsMessage};

    ghost Value = { List ℕ };

    ghost view = { λ message. message.bytes };

    ghost invariant = { λ message. IsMessage message.bytes };
}

impl Message {
    /// The message of bytes that are one: a header, and as many bytes in all as its size says.
    /// Takes no memory.
    pub fn from_whole(bytes: Bytes) -> Message
        requires { IsMessage bytes }
        ensures { result ≡ bytes }
    {
        Message { bytes }
    }

    /// The id of the object that the message is for: the first word of the header.
    pub fn object(&self) -> u32
        ensures { result ≡ object_of self.now }
    {
        word_from(self.bytes.as_slice(), 0)
    }

    /// Which of the object's messages it is: the lower half of the header's second word.
    pub fn opcode(&self) -> u16
        ensures { result ≡ opcode_of self.now }
    {
        (word_from(self.bytes.as_slice(), 4) & 0xffff) as u16
    }

    /// The bytes of the message as a list of their own. Takes no memory.
    pub fn into_bytes(self) -> Bytes
        ensures bytes { result ≡ self }
        ensures whole { IsMessage result }
    {
        self.bytes
    }

    /// All bytes of the message, header included.
    pub fn bytes(&self) -> &[u8]
        ensures bytes { result.now ≡ self.now }
        ensures whole { IsMessage result.now }
    {
        self.bytes.as_slice()
    }
}

impl Clone for Message {
    ghost is_clone = { λ message copy. copy ≡ message };

    fn clone(&self) -> Result<Message, AllocError> {
        let bytes = self.bytes.clone()?;
        Ok(Message { bytes })
    }
}

impl PartialEq for Message {
    ghost eq = { pointwise ◌==◌ };

    ghost laws = { Prim.search (comparing, rules) };

    fn eq(&self, other: &Message) -> bool {
        self.bytes() == other.bytes()
    }
}

impl Eq for Message {
    ghost laws = { Prim.search (comparing, rules) };
}

/// The little-endian word that begins at a byte.
#[tactic(auto, unfolding(crate::specs::Wire::word_at))]
pub(crate) fn word_from(bytes: &[u8], at: usize) -> u32
    requires { at + 4 ≤ length bytes.now }
    ensures { result ≡ word_at bytes.now at }
{
    u32::from_le_bytes([bytes[at], bytes[at + 1], bytes[at + 2], bytes[at + 3]])
}
