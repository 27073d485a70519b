//! How filled blocks are cut into the pieces of FILL frames.

ghost use Rattle.std.specs.Prelude.{◌≡◌, ◌-◌, ◌<◌, ◌≤◌, ◌++◌, IfOk, OnOk};
ghost use Rattle.block_intervals.specs.Sets.{Rises, EndsBy};
ghost use Rattle.half_model.specs.Filling.{pieces_of, pieces_from, pieces_count};
ghost use Rattle.message_plans.specs.Blocks.{MOST_BLOCK, AreInFile};

use block_intervals::Run;
use plain_lists::PlainList;
use std::alloc::{AllocError, Global};

// The most blocks of one FILL, 1,048,512 bytes.
const MOST_BLOCKS: u32 = 16_383;

/// The pieces of all runs, in order.
///
/// # Errors
/// Only where memory runs out.
pub(crate) fn pieces_of(alloc: Global, runs: &[Run]) -> Result<PlainList<Run>, AllocError>
    requires rises { Rises runs.now }
    requires ends { EndsBy MOST_BLOCK runs.now }
    ensures pieces { IfOk result (λ pieces. pieces ≡ pieces_of runs.now) }
    ensures lie { IfOk result AreInFile }
{
    let pieces = cut_runs(alloc, runs)?;
    Ok(pieces)
}

// The pieces of runs, each of which has a block.
fn cut_runs(alloc: Global, runs: &[Run]) -> Result<PlainList<Run>, AllocError>
    requires { AreInFile runs.now }
    ensures { IfOk result (λ pieces. pieces ≡ pieces_of runs.now) }
{
    let mut pieces = PlainList::new(alloc);
    for run in runs {
        add_pieces(&mut pieces, run.first, run.end)?;
    }
    Ok(pieces)
}

// Puts the pieces of a run behind others.
fn add_pieces(pieces: &mut PlainList<Run>, first: u32, end: u32) -> Result<(), AllocError>
    requires some { first < end }
    requires ends { end ≤ MOST_BLOCK }
    ensures { OnOk result (pieces.new
        ≡ pieces.old ++ pieces_from (pieces_count (end - first)) first end) }
{
    let mut left = (end - first + (MOST_BLOCKS - 1)) / MOST_BLOCKS;
    let mut from = first;
    while left > 0 {
        pieces.push(Run {
            first: from,
            end: end.min(from + MOST_BLOCKS),
        })?;
        from += MOST_BLOCKS;
        left -= 1;
    }
    Ok(())
}
