//! The records of one side with their weight, and the order in which messages passed.

ghost use Rattle.std.specs.Prelude.{◌≡◌, ◌+◌, ◌<◌, ◌≤◌, length};
ghost use Rattle.side_model.specs.Books.{MOST_WEIGHT, ITEM_WEIGHT, weight, no_book, closed, with_room};
ghost use Rattle.trail_records.specs.Noting.{trail_of, with_line, with_piece, with_sent, with_counts};
ghost use Rattle.trail_records.specs.Noting.{with_given, Adds, AreLengths, cut_to};

mod noting;

use crate::lines::LineList;
use crate::order::WayList;
use crate::trail::TrailRecord;
use crate::unrecorded::Unrecorded;
use crate::weighing::{with_bytes, with_items};
use half_model::{CopyList, FrameList};
use std::alloc::Global;
use std::marker::Model;
use wl_tables::Way;
use wl_wire::MessageList;
use wp_outside::Side;

/// The records of one side and the order in which messages passed, which grow at their ends. They
/// weigh at most 268,435,456, with the bytes that are lent to be written: a byte that was taken, made,
/// written or read weighs 1, and a copy or a connection 16.
#[derive(Drop)]
pub struct Book {
    trail: TrailRecord,
    order: WayList,
    // What the record weighs.
    weight: u64,
}

impl Model for Book {
    ghost use Rattle.side_model.specs.Books as books;

    ghost Value = { books.Book };

    ghost use Rattle.trail_records.specs.Noting.{trail_of, IsWeighed};

    ghost view = { λ book. record { trail = trail_of book.trail; order = book.order } };

    ghost invariant = { λ book. IsWeighed book.weight (trail_of book.trail) };
}

/// How long the lists of a book are, and what it weighs.
#[derive(Clone, Copy, Debug, PartialEq, Eq)]
pub struct Lengths {
    pub taken: usize,
    pub made: usize,
    pub copies: usize,
    pub order: usize,
    pub weight: u64,
}

impl Book {
    /// The records of a side that has done nothing. Takes no memory.
    pub fn new(alloc: Global, side: Side) -> Book
        ensures { result ≡ no_book side }
    {
        Book {
            trail: TrailRecord {
                side,
                taken: MessageList::new(alloc),
                made: FrameList::new(alloc),
                copies: CopyList::new(alloc),
                lines: LineList::new(alloc),
                accepted: 0,
                acknowledged: 0,
                given: 0,
            },
            order: WayList::new(alloc),
            weight: 0,
        }
    }

    /// The record.
    pub fn record(&self) -> &TrailRecord
        ensures { trail_of result.now ≡ self.now.trail }
    {
        &self.trail
    }

    /// Which way each message went, in the order in which they passed.
    pub fn order(&self) -> &[Way]
        ensures { result.now ≡ self.now.order }
    {
        self.order.as_slice()
    }

    /// What the record weighs.
    pub fn weight(&self) -> u64
        ensures exact { result ≡ weight self.now.trail }
        ensures light { result + self.now.trail.lines.room ≤ MOST_WEIGHT }
    {
        self.weight
    }

    /// For how many bytes that are lent there is room.
    pub fn room(&self) -> usize
        ensures { result ≡ self.now.trail.lines.room }
    {
        self.trail.lines.room()
    }

    /// Keeps no room for bytes that are lent. Takes no memory.
    pub fn close_room(&mut self)
        ensures { self.new ≡ closed self.old }
    {
        self.trail.lines.close_room();
    }

    /// Adds a connection.
    ///
    /// # Errors
    /// `TooHeavy`, or want of memory.
    pub fn add_line(&mut self, connection: u32) -> Result<(), Unrecorded>
        requires { self.old.trail.lines.room ≡ 0 }
        ensures { Adds ITEM_WEIGHT (with_line connection) result self.old self.new }
    {
        let weight = with_items(self.weight, 1)?;
        self.trail.lines.add(connection)?;
        self.weight = weight;
        Ok(())
    }

    /// Adds bytes that were read on the last connection.
    ///
    /// # Errors
    /// `TooHeavy`, or want of memory.
    pub fn add_read(&mut self, piece: &[u8]) -> Result<(), Unrecorded>
        requires closed { self.old.trail.lines.room ≡ 0 }
        requires line { 0 < length self.old.trail.lines.rows }
        ensures { Adds (length piece.now) (with_piece piece.now) result self.old self.new }
    {
        let weight = with_bytes(self.weight, piece.len())?;
        self.trail.lines.add_read(piece)?;
        self.weight = weight;
        Ok(())
    }

    /// Makes room for so many bytes that are lent, to be written on the last connection.
    ///
    /// # Errors
    /// `TooHeavy`, or want of memory.
    pub fn make_room(&mut self, count: usize) -> Result<(), Unrecorded>
        requires { self.old.trail.lines.room ≡ 0 }
        ensures { Adds count (with_room count) result self.old self.new }
    {
        with_bytes(self.weight, count)?;
        self.trail.lines.make_room(count)?;
        Ok(())
    }

    /// Adds bytes that were lent and are written on the last connection now; no room is left for
    /// others. Takes no memory.
    pub fn add_written(&mut self, bytes: &[u8])
        requires room { length bytes.now ≤ self.old.trail.lines.room }
        requires line { 0 < length self.old.trail.lines.rows }
        ensures { self.new ≡ with_sent bytes.now self.old }
    {
        self.trail.lines.add_written(bytes);
        self.weight += bytes.len() as u64;
    }

    /// Sets how many frames were accepted, and how many are acknowledged. Takes no memory.
    pub fn set_counts(&mut self, accepted: u64, acknowledged: u64)
        ensures { self.new ≡ with_counts accepted acknowledged self.old }
    {
        self.trail.accepted = accepted;
        self.trail.acknowledged = acknowledged;
    }

    /// Counts one more message that was given to the peer: one of those that passed. Takes no memory.
    pub fn add_given(&mut self)
        requires { self.old.trail.given < length self.old.order }
        ensures { self.new ≡ with_given self.old }
    {
        let _passed = self.order.len();
        self.trail.given += 1;
    }

    /// How long the lists are.
    pub fn lengths(&self) -> Lengths
        ensures { AreLengths result self.now }
    {
        Lengths {
            taken: self.trail.taken.len(),
            made: self.trail.made.len(),
            copies: self.trail.copies.len(),
            order: self.order.len(),
            weight: self.weight,
        }
    }

    /// Keeps no more of the lists than they were long once, at the weight of then. Takes no memory.
    pub fn cut_back(&mut self, lengths: Lengths)
        requires closed { self.old.trail.lines.room ≡ 0 }
        requires weight { weight (cut_to lengths self.old).trail ≡ lengths.weight }
        ensures { self.new ≡ cut_to lengths self.old }
    {
        self.trail.taken.truncate(lengths.taken);
        self.trail.made.truncate(lengths.made);
        self.trail.copies.truncate(lengths.copies);
        self.order.truncate(lengths.order);
        self.weight = lengths.weight;
    }
}
