//! What a peer's own number stands for.

/// A file or a pipe of a peer.
#[derive(Clone, Copy, Debug, PartialEq, Eq)]
pub enum Thing {
    /// A file: its size in bytes, and how many segments it has.
    File { size: u32, segments: u32 },
    /// A pipe, of which the peer has the reading end.
    Pipe,
}
