//! How much a script may have.

/// The most lines of a script.
pub const MOST_LINES: usize = 200_000;

/// The most bytes of one file.
pub const LARGEST_FILE: u32 = 67_108_864;

/// The most bytes of all files of one peer together.
pub const MOST_OWNED: u32 = 268_435_456;
