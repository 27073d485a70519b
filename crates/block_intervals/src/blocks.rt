//! Sets of blocks.

ghost use Rattle.std.specs.Prelude.{◌≡◌, ℕ, ◌<◌, ◌||◌, [], ◌↔◌, length, IsTrue};
ghost use Rattle.std.specs.Prelude.{IfOk, OnOk, OnErr};
ghost use Rattle.block_intervals.specs.Sets.{has, lies_within, Rises, hull_of};

use crate::places::{ending_until, find_place, replace_runs, spanning_all};
use crate::run::Run;
use std::alloc::{AllocError, Global};
use std::marker::Model;

/// A set of blocks, seen as the one ascending list of its runs.
#[derive(Drop)]
pub struct Blocks {
    runs: Vec<Run>,
}

impl Model for Blocks {
    ghost use Rattle.std.specs.Prelude.{List};
    ghost use Rattle.block_intervals.specs.declared.run.Run.{Run};
    ghost use Rattle.block_intervals.specs.Sets.{Rises};

    ghost Value = { List Run };

    ghost view = { λ blocks. blocks.runs.items };

    ghost invariant = { λ blocks. Rises blocks.runs.items };
}

impl Blocks {
    /// The empty set; takes no memory.
    pub fn new(alloc: Global) -> Blocks
        ensures { result ≡ [] }
    {
        Blocks {
            runs: Vec::new(alloc),
        }
    }

    /// Adds the blocks from `first` up to, but not with, `end`.
    ///
    /// Constant time where no run begins behind `first`, so that adding in ascending order is
    /// linear in all; else time that is linear in the runs behind.
    ///
    /// # Errors
    /// Only where memory runs out; the set is then unchanged.
    pub fn add(&mut self, first: u32, end: u32) -> Result<(), AllocError>
        requires { first < end }
        ensures ok { OnOk result ((block : ℕ)
            → has block self.new ≡ (has block self.old || lies_within first end block)) }
        ensures err { OnErr result (self.new ≡ self.old) }
        ensures rises { Rises self.new }
    {
        let new = Run { first, end };
        let place = find_place(&self.runs, new);
        let whole = spanning_all(new, &self.runs[place.from..place.to]);
        replace_runs(&mut self.runs, place.from, place.to, whole)
    }

    /// Adds the blocks of `other`, in time that is linear in the runs of both.
    ///
    /// # Errors
    /// Only where memory runs out; the set is then unchanged.
    pub fn union(&mut self, other: &Blocks) -> Result<(), AllocError>
        ensures ok { OnOk result ((block : ℕ)
            → has block self.new ≡ (has block self.old || has block other.now)) }
        ensures err { OnErr result (self.new ≡ self.old) }
        ensures rises { Rises self.new }
    {
        let both = Blocks::merged(&self.runs, &other.runs, *self.runs.allocator())?;
        *self = both;
        Ok(())
    }

    // The blocks of two ascending lists of runs, the lower run first: each is added at the end.
    fn merged(mine: &[Run], others: &[Run], alloc: Global) -> Result<Blocks, AllocError>
        requires mine_rise { Rises mine.now }
        requires others_rise { Rises others.now }
        ensures { IfOk result (λ both. (block : ℕ)
            → has block both ≡ (has block mine.now || has block others.now)) }
    {
        let mut both = Blocks::new(alloc);
        let mut at = 0;
        let mut other_at = 0;
        while at < mine.len() || other_at < others.len() {
            if other_at == others.len()
                || (at < mine.len() && mine[at].first <= others[other_at].first)
            {
                both.add(mine[at].first, mine[at].end)?;
                at += 1;
            } else {
                both.add(others[other_at].first, others[other_at].end)?;
                other_at += 1;
            }
        }
        Ok(both)
    }

    /// The runs of the set, ascending, disjoint and not adjoining.
    pub fn runs(&self) -> &[Run]
        ensures runs { result.now ≡ self.now }
        ensures rises { Rises result.now }
    {
        self.runs.as_slice()
    }

    /// How many runs the set has.
    pub fn len(&self) -> usize
        ensures count { result ≡ length self.now }
        ensures rises { Rises self.now }
    {
        self.runs.len()
    }

    /// Whether the set has no block.
    pub fn is_empty(&self) -> bool
        ensures { IsTrue result ↔ (self.now ≡ []) }
    {
        self.runs.is_empty()
    }

    /// Whether `block` is one of the set.
    pub fn contains(&self, block: u32) -> bool
        ensures { result ≡ has block self.now }
    {
        let before = ending_until(&self.runs, block);
        before < self.runs.len() && self.runs[before].first <= block
    }

    /// Fills the gaps: every block from the first of the set to its last. The empty set stays
    /// empty.
    pub fn hull(&mut self)
        ensures hull { self.new ≡ hull_of self.old }
        ensures rises { Rises self.new }
    {
        let count = self.runs.len();
        if count > 0 {
            let whole = Run {
                first: self.runs[0].first,
                end: self.runs[count - 1].end,
            };
            self.runs.truncate(1);
            self.runs[0] = whole;
        }
    }
}
