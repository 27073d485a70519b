//! What a message makes or says, as the tables want it.

use half_model::SentFile;
use handle_table::Handle;
use shm_pools::Buffer;
use surface_damage::BufferKey;

/// A buffer in a file. Its key is another one for each creation.
#[derive(Clone, Copy)]
pub struct MadeBuffer {
    pub key: BufferKey,
    pub file: SentFile,
    pub shape: Buffer,
}

/// The handle of a message with its rid, and whether it is passed for the first time.
#[derive(Clone, Copy)]
pub struct PassedHandle {
    pub handle: Handle,
    pub rid: i32,
    pub is_new: bool,
}

/// The size in bytes that a message says of a file, and whether that is passed for the first time.
#[derive(Clone, Copy)]
pub struct ToldSize {
    pub file: SentFile,
    pub size: u32,
    pub is_new: bool,
}
