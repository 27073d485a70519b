//! One direction of one connection, as the link store in memory keeps it.

ghost use Rattle.std.specs.Prelude.{◌≡◌, ◌↔◌, ◌<◌, ◌≤◌, true, length, min, None, [], OnOk, OnErr, IsTrue};
ghost use Rattle.std.specs.Bool.{MatchBool};
ghost use Rattle.std.specs.Vec.{vec_capacity};
ghost use Rattle.wp_outside.specs.Lines.{lane_with_pushed, lane_with_pulled, lane_with_spoiled};
ghost use Rattle.wp_outside.specs.Kept.{carried, shown_lane};
ghost use Rattle.wp_outside.specs.Pieces.{with_front};

use crate::copying::copy_front;
use plain_lists::append_reserved;
use std::alloc::{AllocError, Global};
use std::marker::Model;

/// All that was pushed, of which some was given. Nothing is dropped, since the contracts of a link
/// speak of it.
///
/// The bytes are kept once. A second list has the room for them, so that a byte can be replaced
/// without taking memory; it is written only once one is.
#[derive(Drop)]
pub(crate) struct StoredLane {
    pushed: Vec<u8>,
    given: usize,
    was_spoiled: bool,
    // The bytes as they are carried, where one was replaced; else none.
    replaced: Vec<u8>,
}

impl Model for StoredLane {
    ghost use Rattle.std.specs.Prelude.{None, Some, if◌then◌else◌};
    ghost use Rattle.wp_outside.specs.Kept.{KeptLane};

    ghost Value = { KeptLane };

    ghost use Rattle.wp_outside.specs.Storing.{IsStored};

    ghost view = { λ l. record {
      pushed = l.pushed.items;
      given = l.given;
      replaced = if l.was_spoiled then (Some l.replaced.items) else None;
    } };

    ghost invariant = { IsStored };
}

impl StoredLane {
    /// A lane that no byte went through.
    pub(crate) fn new(alloc: Global) -> StoredLane
        ensures { result ≡ record { pushed = []; given = 0; replaced = None } }
    {
        StoredLane {
            pushed: Vec::new(alloc),
            given: 0,
            was_spoiled: false,
            replaced: Vec::new(alloc),
        }
    }

    /// Adds bytes at the end, or changes nothing.
    pub(crate) fn push(&mut self, bytes: &[u8]) -> Result<(), AllocError>
        ensures ok { OnOk result
            (shown_lane true self.new ≡ lane_with_pushed bytes.now (shown_lane true self.old)) }
        ensures err { OnErr result (self.new ≡ self.old) }
    {
        self.pushed.reserve(bytes.len())?;
        if self.was_spoiled {
            self.replaced.reserve(bytes.len())?;
            append_reserved(&mut self.replaced, bytes);
        } else {
            self.replaced.reserve(self.pushed.capacity())?;
        }
        append_reserved(&mut self.pushed, bytes);
        Ok(())
    }

    /// The bytes as they are carried.
    fn carried(&self) -> &[u8]
        ensures bytes { result.now ≡ carried self.now }
        ensures given { self.now.given ≤ length result.now }
    {
        if self.was_spoiled {
            self.replaced.as_slice()
        } else {
            self.pushed.as_slice()
        }
    }

    /// Gives the next bytes, as many as the buffer holds, and answers how many.
    pub(crate) fn pull(&mut self, out: &mut [u8]) -> usize
        ensures count { result ≡ min (length (shown_lane true self.old).waiting) (length out.old) }
        ensures bytes { out.new ≡ with_front result (shown_lane true self.old).waiting out.old }
        ensures lane { shown_lane true self.new ≡ lane_with_pulled result (shown_lane true self.old) }
    {
        let (_, waiting) = self.carried().split_at(self.given);
        let count = copy_front(waiting, out);
        self.given += count;
        count
    }

    /// Replaces the waiting byte at an offset, where one waits there.
    pub(crate) fn spoil(&mut self, offset: usize, byte: u8) -> bool
        ensures answer { IsTrue result ↔ (offset < length (shown_lane true self.old).waiting) }
        ensures lane { MatchBool result
            (shown_lane true self.new ≡ lane_with_spoiled offset byte (shown_lane true self.old))
            (self.new ≡ self.old) }
    {
        if offset >= self.pushed.len() - self.given {
            return false;
        }
        let at = self.given + offset;
        if self.was_spoiled {
            self.replaced[at] = byte;
            return true;
        }
        append_reserved(&mut self.replaced, self.pushed.as_slice());
        self.replaced[at] = byte;
        self.was_spoiled = true;
        true
    }
}
