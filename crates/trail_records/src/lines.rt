//! What a side wrote and read on each of its connections.

ghost use Rattle.std.specs.Prelude.{◌≡◌, ◌↔◌, ℕ, ◌+◌, ◌<◌, ◌≤◌, List, [], ◌∷◌, ◌++◌, length, map, IsTrue, OnOk, OnErr};
ghost use Rattle.pair_model.specs.Steps.{on_last, with_written, with_read};
ghost use Rattle.side_model.specs.Books.{with_rows};
ghost use Rattle.trail_records.specs.Rows.{line_of, HasRoom, new_line, no_lines, roomy};

use plain_lists::append_reserved;
use std::alloc::{AllocError, Global};
use std::marker::Model;
use wl_wire::Bytes;

/// What one side wrote and read on one connection.
#[derive(Debug, Drop)]
pub struct LineRecord {
    pub connection: u32,
    pub written: Vec<u8>,
    pub read: Bytes,
}

/// The connections of a side, in order. Behind the bytes that were written on the last one there may
/// be room for more, which are then added without memory.
#[derive(Drop)]
pub struct LineList {
    rows: Vec<LineRecord>,
    room: usize,
}

impl Model for LineList {
    ghost use Rattle.std.specs.Prelude.{map};
    ghost use Rattle.side_model.specs.Books.{Lined};

    ghost Value = { Lined };

    ghost use Rattle.trail_records.specs.Rows.{line_of, HasRoom};

    ghost view = { λ lines. record { rows = map line_of lines.rows.items; room = lines.room } };

    ghost invariant = { λ lines. HasRoom lines.room lines.rows.items };
}

impl LineList {
    /// No line. Takes no memory.
    pub(crate) fn new(alloc: Global) -> LineList
        ensures { result ≡ no_lines }
    {
        LineList {
            rows: Vec::new(alloc),
            room: 0,
        }
    }

    /// The lines as a slice.
    pub fn as_slice(&self) -> &[LineRecord]
        ensures { map line_of result.now ≡ self.now.rows }
    {
        self.rows.as_slice()
    }

    /// How many lines there are.
    pub fn len(&self) -> usize
        ensures { result ≡ length self.now.rows }
    {
        self.rows.len()
    }

    /// Whether there is no line.
    pub fn is_empty(&self) -> bool
        ensures { IsTrue result ↔ (self.now.rows ≡ []) }
    {
        self.rows.is_empty()
    }

    /// For how many bytes on the last line there is room.
    pub(crate) fn room(&self) -> usize
        ensures { result ≡ self.now.room }
    {
        self.room
    }

    /// Keeps no room. Takes no memory.
    pub(crate) fn close_room(&mut self)
        ensures { self.new ≡ roomy 0 self.old }
    {
        self.room = 0;
    }

    /// Adds the line of a connection, with no bytes.
    ///
    /// # Errors
    /// Only where memory runs out; nothing is changed then.
    pub(crate) fn add(&mut self, connection: u32) -> Result<(), AllocError>
        requires { self.old.room ≡ 0 }
        ensures ok { OnOk result (self.new ≡ with_rows (self.old.rows ++ new_line connection ∷ []) self.old) }
        ensures err { OnErr result (self.new ≡ self.old) }
    {
        let alloc = *self.rows.allocator();
        self.rows.push(LineRecord {
            connection,
            written: Vec::new(alloc),
            read: Bytes::new(alloc),
        })?;
        Ok(())
    }

    /// Adds bytes that were read on the last line.
    ///
    /// # Errors
    /// Only where memory runs out; nothing is changed then.
    pub(crate) fn add_read(&mut self, piece: &[u8]) -> Result<(), AllocError>
        ensures ok { OnOk result (self.new ≡ with_rows (on_last (with_read piece.now) self.old.rows) self.old) }
        ensures err { OnErr result (self.new ≡ self.old) }
    {
        read_on_last(&mut self.rows, piece)
    }

    /// Makes room for so many bytes on the last line.
    ///
    /// # Errors
    /// Only where memory runs out; nothing is changed then.
    pub(crate) fn make_room(&mut self, count: usize) -> Result<(), AllocError>
        requires { self.old.room ≡ 0 }
        ensures ok { OnOk result (self.new ≡ roomy count self.old) }
        ensures err { OnErr result (self.new ≡ self.old) }
    {
        reserve_on_last(&mut self.rows, count)?;
        self.room = count;
        Ok(())
    }

    /// Adds bytes that were written on the last line, for which there is room; none is left then.
    /// Takes no memory.
    pub(crate) fn add_written(&mut self, bytes: &[u8])
        requires { length bytes.now ≤ self.old.room }
        ensures { self.new ≡ roomy 0 (with_rows (on_last (with_written bytes.now) self.old.rows) self.old) }
    {
        self.room = 0;
        write_on_last(&mut self.rows, bytes);
    }
}

// What follows changes the last line, if there is one.

fn read_on_last(rows: &mut Vec<LineRecord>, piece: &[u8]) -> Result<(), AllocError>
    ensures ok { OnOk result (map line_of rows.new.items
        ≡ on_last (with_read piece.now) (map line_of rows.old.items)) }
    ensures err { OnErr result (map line_of rows.new.items ≡ map line_of rows.old.items) }
    ensures room { (room : ℕ) → HasRoom room rows.old.items → HasRoom room rows.new.items }
{
    match rows.pop() {
        Some(mut line) => {
            let read = line.read.append(piece);
            rows.push(line).unwrap();
            read
        }
        None => Ok(()),
    }
}

fn reserve_on_last(rows: &mut Vec<LineRecord>, count: usize) -> Result<(), AllocError>
    ensures same { map line_of rows.new.items ≡ map line_of rows.old.items }
    ensures room { OnOk result (HasRoom count rows.new.items) }
    ensures none { HasRoom 0 rows.old.items → HasRoom 0 rows.new.items }
{
    match rows.pop() {
        Some(mut line) => {
            let made = line.written.reserve(count);
            rows.push(line).unwrap();
            made
        }
        None => Ok(()),
    }
}

fn write_on_last(rows: &mut Vec<LineRecord>, bytes: &[u8])
    requires { HasRoom (length bytes.now) rows.old.items }
    ensures written { map line_of rows.new.items
        ≡ on_last (with_written bytes.now) (map line_of rows.old.items) }
    ensures room { HasRoom 0 rows.new.items }
{
    match rows.pop() {
        Some(mut line) => {
            append_reserved(&mut line.written, bytes);
            rows.push(line).unwrap();
        }
        None => {}
    }
}
