//! The link between the two sides, as a store of what was pushed into each connection.

ghost use Rattle.std.specs.Prelude.{◌≡◌, ◌↔◌, ℕ, ◌<◌, true, false, length, min, OnOk, OnErr, IsTrue};
ghost use Rattle.std.specs.Bool.{MatchBool};
ghost use Rattle.wp_outside.specs.Lines.{Line, opened_line, lane_of, pushed_onto, pulled_from, spoiled_at, cut_line, Became, Same, IsHonest};
ghost use Rattle.wp_outside.specs.Pieces.{with_front};

use crate::kinds::Direction;
use std::alloc::AllocError;

/// The connections between the two sides, by their numbers, with the bytes of both directions.
pub trait LinkStore {
    // What went through each connection.
    ghost line: { Self → ℕ → Line };

    /// Opens a connection whose number was never opened.
    fn open(&mut self, connection: u32) -> Result<(), AllocError>
        requires { (line self.old connection).was_opened ≡ false }
        ensures ok { OnOk result
            (Became (line self.old) (line self.new) connection (λ _. opened_line)) }
        ensures err { OnErr result (Same (line self.old) (line self.new)) };

    /// Pushes bytes into one direction of a connection that is open, and makes the room that all
    /// later calls need.
    fn push(&mut self, connection: u32, dir: Direction, bytes: &[u8]) -> Result<(), AllocError>
        requires { (line self.old connection).is_up ≡ true }
        ensures ok { OnOk result
            (Became (line self.old) (line self.new) connection (pushed_onto dir bytes.now)) }
        ensures err { OnErr result (Same (line self.old) (line self.new)) };

    /// Pulls the next waiting bytes of one direction, as many as `out` holds, and answers how many.
    /// 0 comes only where none waits, the connection isn't open or `out` is empty.
    fn pull(&mut self, connection: u32, dir: Direction, out: &mut [u8]) -> usize
        ensures count { let waiting = (lane_of dir (line self.old connection)).waiting in
            result ≡ min (length waiting) (length out.old) }
        ensures bytes { let waiting = (lane_of dir (line self.old connection)).waiting in
            out.new ≡ with_front result waiting out.old }
        ensures change { Became (line self.old) (line self.new) connection (pulled_from dir result) };

    /// Closes a connection and drops what waits in it.
    fn cut(&mut self, connection: u32)
        ensures change { Became (line self.old) (line self.new) connection cut_line };

    /// Replaces the waiting byte of one direction at an offset and answers true; where no byte
    /// waits there, answers false and changes nothing.
    fn spoil(&mut self, connection: u32, dir: Direction, offset: usize, byte: u8) -> bool
        ensures answer { let waiting = (lane_of dir (line self.old connection)).waiting in
            IsTrue result ↔ (offset < length waiting) }
        ensures change { MatchBool result
            (Became (line self.old) (line self.new) connection (spoiled_at dir offset byte))
            (Same (line self.old) (line self.new)) };

    // What was pulled is a front of what was pushed while the lane isn't spoiled, and what is left
    // of it waits while the connection is up; nothing waits after a cut, and a number that was
    // never opened has nothing.
    ghost honest: { (s : Self) (connection : ℕ) → IsHonest (line s connection) };
}
