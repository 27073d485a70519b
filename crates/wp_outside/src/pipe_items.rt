//! What a peer does to a pipe.

use plain_lists::PlainList;

/// What happens to a pipe at one of its ends. Where nothing else is said, `pipe` is the pipe's rid.
#[derive(Debug, Drop, PartialEq, Eq)]
pub enum PipeItem {
    /// A piece of 1 to 65,536 bytes is written.
    Bytes { pipe: i32, bytes: PlainList<u8> },
    /// The write end is closed.
    End { pipe: i32 },
    /// The reading end is closed.
    Shut { pipe: i32 },
}
