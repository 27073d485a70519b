//! What one dial has counted.

ghost use Rattle.std.specs.Prelude.{◌≡◌, ◌+◌, ◌-◌, ◌^◌, ◌<◌};
ghost use Rattle.link_ends.specs.Counts.{grown, no_dial_counts, after_back};

use crate::link_counts::LinkCounts;

/// The counts of one dial. All but the lines out stand still at their last value.
#[derive(Clone, Copy, Debug, PartialEq, Eq)]
pub struct DialCounts {
    /// The lines that it gave and didn't take back.
    pub lines_out: u32,
    /// The bytes that those lines gave which came back.
    pub given: u64,
    /// The bytes that those lines took which came back.
    pub taken: u64,
    /// The lines that came back after an end or a fault.
    pub broken_lines: u64,
    /// The dials that found that the other side had left, its last word heard.
    pub partings: u64,
    /// The dials that failed.
    pub faults: u64,
}

impl DialCounts {
    /// The counts of a new dial.
    pub fn new() -> DialCounts
        ensures { result ≡ no_dial_counts }
    {
        DialCounts {
            lines_out: 0,
            given: 0,
            taken: 0,
            broken_lines: 0,
            partings: 0,
            faults: 0,
        }
    }

    /// Counts a line that is given.
    pub fn count_line(&mut self)
        requires { self.old.lines_out < 2 ^ 32 - 1 }
        ensures { self.new ≡ record self.old { lines_out = self.old.lines_out + 1 } }
    {
        self.lines_out += 1;
    }

    /// Counts a parting.
    pub fn count_parting(&mut self)
        ensures { self.new ≡ record self.old { partings = grown self.old.partings 1 } }
    {
        self.partings = self.partings.saturating_add(1);
    }

    /// Counts a dial that failed.
    pub fn count_fault(&mut self)
        ensures { self.new ≡ record self.old { faults = grown self.old.faults 1 } }
    {
        self.faults = self.faults.saturating_add(1);
    }

    /// Counts a line that came back.
    pub fn count_back(&mut self, line: LinkCounts)
        ensures { self.new ≡ after_back line self.old }
    {
        self.lines_out = self.lines_out.saturating_sub(1);
        self.given = self.given.saturating_add(line.given);
        self.taken = self.taken.saturating_add(line.taken);
        if line.is_broken() {
            self.broken_lines = self.broken_lines.saturating_add(1);
        }
    }
}
