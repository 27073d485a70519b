//! The room that a sink in memory writes over.

ghost use Rattle.std.specs.Prelude.{◌≡◌, ◌≤◌, ◌+◌, ◌-◌, [], ◌++◌, length, take, drop, min};
ghost use Rattle.wp_outside.specs.MemoryForms.{is_full};

use crate::copying::copy_front;
use std::marker::Model;

/// Room for bytes, of which the first `used` were written.
#[derive(Drop)]
pub(crate) struct Room {
    bytes: Vec<u8>,
    used: usize,
}

impl Model for Room {
    ghost use Rattle.std.specs.Prelude.{take, drop, length, ◌≤◌};
    ghost use Rattle.wp_outside.specs.MemoryForms.{PartlyUsed};

    ghost Value = { PartlyUsed };

    ghost view = { λ r. record {
      held = take r.used r.bytes.items;
      spare = drop r.used r.bytes.items;
    } };

    ghost invariant = { λ r. r.used ≤ length r.bytes.items };
}

impl Room {
    /// This room, to be written over from its front.
    pub(crate) fn new(bytes: Vec<u8>) -> Room
        ensures { result ≡ record { held = []; spare = bytes.items } }
    {
        Room { bytes, used: 0 }
    }

    /// Whether no place is left.
    pub(crate) fn is_full(&self) -> bool
        ensures { result ≡ is_full self.now.spare }
    {
        let (_, spare) = self.bytes.as_slice().split_at(self.used);
        spare.is_empty()
    }

    /// Writes over the next places, as many bytes as there are places, and answers how many.
    pub(crate) fn write(&mut self, bytes: &[u8]) -> usize
        ensures count { result ≡ min (length bytes.now) (length self.old.spare) }
        ensures held { self.new.held ≡ self.old.held ++ take result bytes.now }
        ensures spare { self.new.spare ≡ drop result self.old.spare }
    {
        let count = write_over(&mut self.bytes, self.used, bytes);
        self.used += count;
        count
    }

    /// The bytes that were written.
    pub(crate) fn held(&self) -> &[u8]
        ensures { result.now ≡ self.now.held }
    {
        let (held, _) = self.bytes.as_slice().split_at(self.used);
        held
    }

    /// The whole room.
    pub(crate) fn into_bytes(self) -> Vec<u8>
        ensures { result.items ≡ self.held ++ self.spare }
    {
        self.bytes
    }
}

/// Copies as many bytes as there are places over a slice from a place on, and answers how many.
fn write_over(room: &mut [u8], used: usize, bytes: &[u8]) -> usize
    requires { used ≤ length room.old }
    ensures count { result ≡ min (length bytes.now) (length room.old - used) }
    ensures held { take (used + result) room.new ≡ take used room.old ++ take result bytes.now }
    ensures spare { drop (used + result) room.new ≡ drop (used + result) room.old }
{
    copy_front(bytes, &mut room[used..])
}
