//! What a pair of dials has counted.

ghost use Rattle.std.specs.Prelude.{◌≡◌, ◌≤◌};
ghost use Rattle.wp_outside.specs.Counts.{Rose};
ghost use Rattle.link_ends.specs.Counts.{grown, no_side_counts, after_close};

use crate::dial_counts::DialCounts;
use std::marker::Model;

/// The counts of one side's dials that came back. Each stands still at its last value.
#[derive(Clone, Copy, Debug, PartialEq, Eq)]
pub struct SideCounts {
    /// The bytes that their lines gave.
    pub given: u64,
    /// The bytes that their lines took.
    pub taken: u64,
    /// Their broken lines.
    pub broken_lines: u64,
    /// Their partings.
    pub partings: u64,
    /// Their faults.
    pub faults: u64,
}

impl SideCounts {
    /// The counts of a side that took no dial back.
    pub fn new() -> SideCounts
        ensures { result ≡ no_side_counts }
    {
        SideCounts {
            given: 0,
            taken: 0,
            broken_lines: 0,
            partings: 0,
            faults: 0,
        }
    }

    /// Counts a dial that came back.
    pub fn count_dial(&mut self, dial: DialCounts)
        ensures { self.new ≡ after_close dial self.old }
    {
        self.given = self.given.saturating_add(dial.given);
        self.taken = self.taken.saturating_add(dial.taken);
        self.broken_lines = self.broken_lines.saturating_add(dial.broken_lines);
        self.partings = self.partings.saturating_add(dial.partings);
        self.faults = self.faults.saturating_add(dial.faults);
    }
}

/// The counts of a pair: one of each for each side, and the faults of the pair, which are no fewer
/// than those of a side.
#[derive(Drop)]
pub struct PairCounts {
    near: SideCounts,
    far: SideCounts,
    faults: u64,
}

impl Model for PairCounts {
    ghost use Rattle.std.specs.Prelude.{◌≤◌};
    ghost use Rattle.link_ends.specs.Counts.{PairTotals};

    ghost Value = { PairTotals };

    ghost view = { λ c. record { near = c.near; far = c.far; faults = c.faults } };

    ghost invariant = { λ c. (c.near.faults ≤ c.faults) × (c.far.faults ≤ c.faults) };
}

impl PairCounts {
    /// The counts of a pair that nothing was asked of.
    pub fn new() -> PairCounts
        ensures { result ≡ record { near = no_side_counts; far = no_side_counts; faults = 0 } }
    {
        PairCounts {
            near: SideCounts::new(),
            far: SideCounts::new(),
            faults: 0,
        }
    }

    /// Counts that no pair of dials could be opened.
    pub fn count_fault(&mut self)
        ensures after { self.new ≡ record self.old { faults = grown self.old.faults 1 } }
        ensures kept { self.old.faults ≤ self.new.faults }
    {
        self.faults = self.faults.saturating_add(1);
    }

    /// Counts both dials, which came back.
    pub fn count_close(&mut self, near: DialCounts, far: DialCounts)
        ensures near { self.new.near ≡ after_close near self.old.near }
        ensures far { self.new.far ≡ after_close far self.old.far }
        ensures near_rose { Rose self.old.near.faults self.new.near.faults
            → Rose self.old.faults self.new.faults }
        ensures far_rose { Rose self.old.far.faults self.new.far.faults
            → Rose self.old.faults self.new.faults }
        ensures exact { self.new.faults ≡ grown (grown self.old.faults near.faults) far.faults }
        ensures kept { self.old.faults ≤ self.new.faults }
    {
        self.near.count_dial(near);
        self.far.count_dial(far);
        self.faults = self
            .faults
            .saturating_add(near.faults)
            .saturating_add(far.faults);
    }
}
