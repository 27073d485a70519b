//! What a commit is told of its buffer, and what it answers.

use block_intervals::Blocks;
use shm_pools::Buffer;

/// The current buffer of a surface as it stands when the surface is committed.
#[derive(Clone, Copy, Debug, PartialEq, Eq, Drop)]
pub enum Standing {
    /// None is attached, or it was destroyed, or it does not fit.
    Nothing,
    /// It lives and fits in the `told` bytes of its file.
    Fits { buffer: Buffer, told: u32 },
}

/// What a commit has to carry.
#[derive(Drop)]
pub struct Due {
    /// The blocks of 64 bytes of the buffer's file.
    pub blocks: Blocks,
}
