//! How far one step of loading words comes.

/// What one step of loading the words of copies comes to.
#[derive(Clone, Copy, Debug, PartialEq, Eq)]
pub(crate) enum Progress {
    /// No copy is awaited.
    Nothing,
    /// So many words were loaded, and others are left.
    Part(usize),
    /// So many words were loaded, the last ones that were left, and the message's frames are made.
    Whole(usize),
}
