//! A file, and the runs of its blocks that are filled.

ghost use Rattle.std.specs.Prelude.{◌≡◌};
ghost use Rattle.block_intervals.specs.Sets.{Rises, EndsBy};
ghost use Rattle.message_plans.specs.Blocks.{MOST_BLOCK};

use block_intervals::Run;
use half_model::SentFile;
use plain_lists::PlainList;
use std::marker::Model;

/// The runs of blocks of a file that a message fills. They rise, and end within the sizes that
/// files can have.
#[derive(Drop)]
pub struct FilledBlocks {
    pub(crate) file: SentFile,
    pub(crate) runs: PlainList<Run>,
}

impl Model for FilledBlocks {
    ghost use Rattle.block_intervals.specs.Sets.{Rises, EndsBy};
    ghost use Rattle.half_model.specs.Showing.{Filling};
    ghost use Rattle.message_plans.specs.Blocks.{MOST_BLOCK};

    ghost Value = { Filling };

    ghost view = { λ it. record { file = it.file; runs = it.runs } };

    ghost invariant = { λ it. Rises it.runs × EndsBy MOST_BLOCK it.runs };
}

impl FilledBlocks {
    /// The file, and the runs of its blocks. Takes no memory.
    pub fn into_parts(self) -> (SentFile, PlainList<Run>)
        ensures file { result.0 ≡ self.file }
        ensures runs { result.1 ≡ self.runs }
        ensures rise { Rises result.1 }
        ensures end { EndsBy MOST_BLOCK result.1 }
    {
        let FilledBlocks { file, runs } = self;
        (file, runs)
    }
}
