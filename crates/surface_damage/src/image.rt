//! Where the pixels of an image lie in its file, and the blocks of parts of its rows.

ghost use Rattle.std.specs.Prelude.{◌≡◌, ℕ, ◌+◌, ◌*◌, ◌^◌, ◌<◌, ◌≤◌, ◌||◌, ◌&&◌, ◌==◌, OnOk};
ghost use Rattle.block_intervals.specs.Sets.{has, lies_within, Rises, EndsBy};
ghost use Rattle.surface_damage.specs.Images.{image_of, LiesIn, in_pixels, holds, meets};

use crate::interval::Interval;
use block_intervals::{Blocks, Run};
use shm_pools::Buffer;
use std::alloc::AllocError;

// The bytes of a block.
const BLOCK: u64 = 64;

// Rows of four bytes a pixel, the first at `offset` and each next one `stride` bytes on.
#[derive(Clone, Copy)]
pub(crate) struct Image {
    pub(crate) offset: u64,
    pub(crate) width: u64,
    pub(crate) height: u64,
    pub(crate) stride: u64,
}

impl Image {
    // The image of a buffer that fits.
    pub(crate) fn of(buffer: &Buffer) -> Image
        ensures { result ≡ image_of buffer.now }
    {
        Image {
            offset: u64::from(buffer.offset.unsigned_abs()),
            width: u64::from(buffer.width.unsigned_abs()),
            height: u64::from(buffer.height.unsigned_abs()),
            stride: u64::from(buffer.stride.unsigned_abs()),
        }
    }

    // Where a row begins.
    fn row_start(self, row: u64, told: u32) -> u64
        requires lies { LiesIn self told }
        requires in_image { row < self.height }
        ensures start { result ≡ self.offset + self.stride * row }
        ensures ends { result + self.stride ≤ told }
    {
        self.offset + self.stride * row
    }

    // Adds the blocks of the pixels of a row in these columns, from left to right.
    fn add_row(
        self,
        blocks: &mut Blocks,
        row: u64,
        columns: &[Run],
        told: u32,
    ) -> Result<(), AllocError>
        requires lies { LiesIn self told }
        requires in_image { row < self.height }
        requires rises { Rises columns.now }
        requires within { EndsBy self.width columns.now }
        ensures { OnOk result ((block : ℕ) → has block blocks.new ≡ (has block blocks.old
            || holds (in_pixels self (λ bx by. (by == row) && has bx columns.now)) block)) }
    {
        let start = self.row_start(row, told);
        for run in columns {
            let (first, end) = (u64::from(run.first), u64::from(run.end));
            add_bytes(blocks, start + 4 * first, start + 4 * end)?;
        }
        Ok(())
    }

    // Adds the blocks of the pixels in these rows and columns, from top to bottom.
    pub(crate) fn add_rows(
        self,
        blocks: &mut Blocks,
        rows: Interval,
        columns: &[Run],
        told: u32,
    ) -> Result<(), AllocError>
        requires lies { LiesIn self told }
        requires order { rows.first ≤ rows.end }
        requires in_image { rows.end ≤ self.height }
        requires rises { Rises columns.now }
        requires within { EndsBy self.width columns.now }
        ensures { OnOk result ((block : ℕ) → has block blocks.new ≡ (has block blocks.old
            || holds (in_pixels self
            (λ bx by. lies_within rows.first rows.end by && has bx columns.now)) block)) }
    {
        for row in rows.first..rows.end {
            self.add_row(blocks, row, columns, told)?;
        }
        Ok(())
    }
}

// Adds the blocks that hold a byte from `first` on and before `end`.
pub(crate) fn add_bytes(blocks: &mut Blocks, first: u64, end: u64) -> Result<(), AllocError>
    requires some { first < end }
    requires small { end < 2 ^ 32 }
    ensures { OnOk result ((block : ℕ)
        → has block blocks.new ≡ (has block blocks.old || meets first end block)) }
{
    blocks.add((first / BLOCK) as u32, ((end - 1) / BLOCK + 1) as u32)
}
