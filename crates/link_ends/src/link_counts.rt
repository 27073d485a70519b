//! What one end of a line has counted.

ghost use Rattle.std.specs.Prelude.{◌≡◌};
ghost use Rattle.link_ends.specs.Counts.{no_link_counts, is_broken};
ghost use Rattle.link_ends.specs.Reads.{after_read, ReadMoved};
ghost use Rattle.link_ends.specs.Writes.{after_write, WriteMoved};

use crate::links::{LinkRead, LinkWrite};

/// The counts of one end of a line. Each stands still at its last value.
#[derive(Clone, Copy, Debug, PartialEq, Eq)]
pub struct LinkCounts {
    /// The bytes that its reads gave.
    pub given: u64,
    /// The bytes that its writes took.
    pub taken: u64,
    /// The reads that found no byte, and the writes that found no room.
    pub pauses: u64,
    /// The reads that found the end.
    pub ends: u64,
    /// The reads and writes that failed.
    pub faults: u64,
}

impl LinkCounts {
    /// The counts of a new line.
    pub fn new() -> LinkCounts
        ensures { result ≡ no_link_counts }
    {
        LinkCounts {
            given: 0,
            taken: 0,
            pauses: 0,
            ends: 0,
            faults: 0,
        }
    }

    /// Counts what a read answered.
    pub fn count_read(&mut self, answer: LinkRead)
        ensures after { self.new ≡ after_read answer self.old }
        ensures moved { ReadMoved answer self.old self.new }
    {
        match answer {
            LinkRead::Bytes(count) => self.given = self.given.saturating_add(count as u64),
            LinkRead::Again => self.pauses = self.pauses.saturating_add(1),
            LinkRead::Ended => self.ends = self.ends.saturating_add(1),
            LinkRead::Failed => self.faults = self.faults.saturating_add(1),
        }
    }

    /// Counts what a write answered.
    pub fn count_write(&mut self, answer: LinkWrite)
        ensures after { self.new ≡ after_write answer self.old }
        ensures moved { WriteMoved answer self.old self.new }
    {
        match answer {
            LinkWrite::Bytes(count) => self.taken = self.taken.saturating_add(count as u64),
            LinkWrite::Again => self.pauses = self.pauses.saturating_add(1),
            LinkWrite::Failed => self.faults = self.faults.saturating_add(1),
        }
    }

    /// Whether the line ended or failed.
    pub fn is_broken(&self) -> bool
        ensures { result ≡ is_broken self.now }
    {
        self.ends > 0 || self.faults > 0
    }
}
