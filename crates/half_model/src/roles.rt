//! What the ids of a client's objects stand for, beyond their interfaces.

use shm_pools::Buffer;
use surface_damage::BufferKey;

/// A file that this side's peer passed.
#[derive(Clone, Copy, Debug, PartialEq, Eq)]
pub struct SentFile {
    /// The rid that it was passed with.
    pub rid: i32,
    /// The peer's own number for it.
    pub number: i32,
}

/// What was last made at an id.
#[derive(Clone, Copy, Debug, PartialEq, Eq)]
pub enum Role {
    /// A pool of this file.
    Pool {
        file: SentFile,
    },
    /// A buffer in this file. Its key is another one for each creation.
    Buffer {
        key: BufferKey,
        file: SentFile,
        shape: Buffer,
    },
    /// A surface, and the id that was attached last, or 0.
    Surface {
        buffer: u32,
    },
}
