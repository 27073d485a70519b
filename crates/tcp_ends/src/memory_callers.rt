//! Dials in memory, as one way among others.

ghost use Rattle.std.specs.Prelude.{◌≡◌, false};

use crate::line_ends::LineEnd;
use crate::sockets::NoLine;
use link_ends::{Dial, Dialled, MemoryDial};
use std::sync::Wait;

/// A dial in memory that hasn't left.
#[derive(Drop)]
pub(crate) struct MemoryCaller<R: Wait + Clone> {
    pub(crate) dial: MemoryDial<R>,
    ghost stays: { dial.has_left ≡ false },
}

impl<R: Wait + Clone> MemoryCaller<R> {
    /// The next connection's number, and this side's end of it.
    pub(crate) fn next(&mut self, heard: bool) -> Result<(u32, LineEnd), NoLine> {
        match self.dial.dial(heard) {
            Dialled::Link { connection, link } => Ok((connection, LineEnd::Memory(link))),
            Dialled::Gone | Dialled::Failed => Err(NoLine::Left),
            Dialled::Memory => Err(NoLine::Memory),
        }
    }

    /// Dials no more.
    pub(crate) fn leave(self) {
        let mut dial = self.dial;
        dial.leave();
    }
}
