//! Ends of lines that nothing was asked of yet.

ghost use Rattle.std.specs.Prelude.{◌≡◌};
ghost use Rattle.link_ends.specs.Counts.{no_link_counts};

use crate::memory_lines::MemoryLine;

/// An end of a new line, with the connection's number.
#[derive(Drop)]
pub(crate) struct NewEnd {
    pub(crate) connection: u32,
    pub(crate) line: MemoryLine,
    ghost fresh: { line.counts ≡ no_link_counts },
}
