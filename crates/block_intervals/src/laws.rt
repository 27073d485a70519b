//! Laws of sets of blocks: what holds of all of them, with no code.

ghost use Rattle.block_intervals.specs.Statements.{RunsAreUnique, RunsOfAccepted, RunsOfLieBelow};
ghost use Rattle.block_intervals.specs.Statements.{EndsByBlocks, HullIsBetween, HullLiesWithin};

/// Each set of blocks has one list of runs.
pub fn runs_are_unique()
    ensures { RunsAreUnique }
{}

/// Runs with just the blocks below a bound that a test accepts are the runs of the list of those
/// blocks, which rise and end by the bound.
pub fn has_runs_of()
    ensures unique { RunsOfAccepted }
    ensures below { RunsOfLieBelow }
{}

/// Runs end by a number just where every block of the set is below it.
pub fn ends_by_blocks()
    ensures { EndsByBlocks }
{}

/// The hull of a set has every block between two of the set, and no other.
pub fn has_hull()
    ensures between { HullIsBetween }
    ensures within { HullLiesWithin }
{}
