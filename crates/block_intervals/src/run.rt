//! A stretch of blocks.

ghost use Rattle.std.specs.Prelude.{◌≡◌};
ghost use Rattle.block_intervals.specs.Places.{spanning};

/// The blocks from `first` up to, but not with, `end`.
#[derive(Clone, Copy, Debug, PartialEq, Eq)]
pub struct Run {
    /// Its first block.
    pub first: u32,
    /// The block after its last.
    pub end: u32,
}

impl Run {
    // The least run that has the blocks of both.
    pub(crate) fn spanning(self, other: Run) -> Run
        ensures { result ≡ spanning self other }
    {
        Run {
            first: self.first.min(other.first),
            end: self.end.max(other.end),
        }
    }
}
