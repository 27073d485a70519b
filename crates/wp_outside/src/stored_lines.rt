//! One connection, as the link store in memory keeps it.

ghost use Rattle.std.specs.Prelude.{◌≡◌, ◌↔◌, ◌<◌, true, length, min, OnOk, OnErr, IsTrue};
ghost use Rattle.std.specs.Bool.{MatchBool};
ghost use Rattle.wp_outside.specs.Lines.{opened_line, lane_of, pushed_onto, pulled_from, spoiled_at, cut_line};
ghost use Rattle.wp_outside.specs.Kept.{shown_line};
ghost use Rattle.wp_outside.specs.Pieces.{with_front};

use crate::kinds::Direction;
use crate::stored_lanes::StoredLane;
use std::alloc::{AllocError, Global};
use std::marker::Model;

/// A connection that was opened, with its two directions. What stands in them is dropped by a cut.
#[derive(Drop)]
pub(crate) struct StoredLine {
    is_up: bool,
    up: StoredLane,
    down: StoredLane,
}

impl Model for StoredLine {
    ghost use Rattle.wp_outside.specs.Kept.{KeptLine};

    ghost Value = { KeptLine };

    ghost view = { λ l. record { is_up = l.is_up; up = l.up; down = l.down } };
}

impl StoredLine {
    /// A connection that was just opened.
    pub(crate) fn new(alloc: Global) -> StoredLine
        ensures { shown_line result ≡ opened_line }
    {
        StoredLine {
            is_up: true,
            up: StoredLane::new(alloc),
            down: StoredLane::new(alloc),
        }
    }

    /// Adds bytes at the end of one direction, or changes nothing.
    pub(crate) fn push(&mut self, dir: Direction, bytes: &[u8]) -> Result<(), AllocError>
        requires { self.old.is_up ≡ true }
        ensures ok { OnOk result
            (shown_line self.new ≡ pushed_onto dir bytes.now (shown_line self.old)) }
        ensures err { OnErr result (self.new ≡ self.old) }
    {
        match dir {
            Direction::Up => self.up.push(bytes),
            Direction::Down => self.down.push(bytes),
        }
    }

    /// Gives the next bytes of one direction, as many as the buffer holds, and answers how many.
    pub(crate) fn pull(&mut self, dir: Direction, out: &mut [u8]) -> usize
        ensures count { let waiting = (lane_of dir (shown_line self.old)).waiting in
            result ≡ min (length waiting) (length out.old) }
        ensures bytes { let waiting = (lane_of dir (shown_line self.old)).waiting in
            out.new ≡ with_front result waiting out.old }
        ensures line { shown_line self.new ≡ pulled_from dir result (shown_line self.old) }
    {
        if !self.is_up {
            return 0;
        }
        match dir {
            Direction::Up => self.up.pull(out),
            Direction::Down => self.down.pull(out),
        }
    }

    /// Closes the connection, and lets nothing wait.
    pub(crate) fn cut(&mut self)
        ensures { shown_line self.new ≡ cut_line (shown_line self.old) }
    {
        self.is_up = false;
    }

    /// Replaces the waiting byte of one direction at an offset, where one waits there.
    pub(crate) fn spoil(&mut self, dir: Direction, offset: usize, byte: u8) -> bool
        ensures answer { let waiting = (lane_of dir (shown_line self.old)).waiting in
            IsTrue result ↔ (offset < length waiting) }
        ensures line { MatchBool result
            (shown_line self.new ≡ spoiled_at dir offset byte (shown_line self.old))
            (self.new ≡ self.old) }
    {
        if !self.is_up {
            return false;
        }
        match dir {
            Direction::Up => self.up.spoil(offset, byte),
            Direction::Down => self.down.spoil(offset, byte),
        }
    }
}
