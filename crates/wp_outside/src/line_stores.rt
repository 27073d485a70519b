//! The link store in memory.

ghost use Rattle.std.specs.Prelude.{◌≡◌, []};
ghost use Rattle.wp_outside.specs.Kept.{line_among};

use crate::kinds::Direction;
use crate::link_stores::LinkStore;
use crate::stored_lines::StoredLine;
use std::alloc::{AllocError, Global};
use std::collections::BTreeMap;
use std::marker::Model;

/// The connections between two sides that stand in one process.
#[derive(Drop)]
pub struct LineStore {
    lines: BTreeMap<u32, StoredLine>,
    alloc: Global,
}

impl Model for LineStore {
    ghost use Rattle.std.specs.Prelude.{ℕ, List};
    ghost use Rattle.wp_outside.specs.Kept.{KeptLine};

    ghost Value = { List (ℕ × KeptLine) };

    ghost view = { λ s. s.lines.entries };
}

impl LineStore {
    /// A store in which no connection was opened.
    pub fn new(alloc: Global) -> LineStore
        ensures { result ≡ [] }
    {
        LineStore {
            lines: BTreeMap::new(alloc),
            alloc,
        }
    }
}

impl LinkStore for LineStore {
    ghost line = { line_among };

    /// Takes no memory but for the connection's place.
    fn open(&mut self, connection: u32) -> Result<(), AllocError> {
        self.lines.insert(connection, StoredLine::new(self.alloc))?;
        Ok(())
    }

    /// Makes the room for all that later calls keep.
    fn push(&mut self, connection: u32, dir: Direction, bytes: &[u8]) -> Result<(), AllocError> {
        match self.lines.get_mut(&connection) {
            Some(line) => line.push(dir, bytes),
            None => unreachable!("the connection is open"),
        }
    }

    /// Takes no memory.
    fn pull(&mut self, connection: u32, dir: Direction, out: &mut [u8]) -> usize {
        match self.lines.get_mut(&connection) {
            Some(line) => line.pull(dir, out),
            None => 0,
        }
    }

    /// Takes no memory.
    fn cut(&mut self, connection: u32) {
        if let Some(line) = self.lines.get_mut(&connection) {
            line.cut();
        }
    }

    /// Takes no memory.
    fn spoil(&mut self, connection: u32, dir: Direction, offset: usize, byte: u8) -> bool {
        match self.lines.get_mut(&connection) {
            Some(line) => line.spoil(dir, offset, byte),
            None => false,
        }
    }

    ghost use Rattle.wp_outside.specs.KeptLaws.{line_among_honest};

    ghost honest = { line_among_honest };
}
