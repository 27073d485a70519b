//! What one side knows of handles.

ghost use Rattle.std.specs.Prelude.{◌≡◌, ◌<◌, None, Some, IfOk, OnOk, OnErr, option_map};
ghost use Rattle.handle_table.specs.Sound.{IsSound};
ghost use Rattle.handle_table.specs.Table.{most_handles, rid_at, seat as seat_at, rid_of_handle};
ghost use Rattle.handle_table.specs.Table.{rid_of_number, seat_for, answer_of, after_pass};
ghost use Rattle.handle_table.specs.Table.{kind_of_rid, after_took, fresh_table};

use crate::handles::{Handle, Seat};
use indexmap::IndexSet;
use std::alloc::{AllocError, Global};
use std::collections::BTreeMap;
use std::marker::Model;
use wp_outside::{HandleKind, Side};

// How many handles a side can pass: a rid has 32 bits.
const MOST_HANDLES: usize = 2_147_483_647;

/// The handles that one side passed, each with its rid, and the rids that the other side opened.
///
/// A look-up of a handle takes expected constant time, since its numbers are the side's own peer's.
/// The rids of the other side may be anyone's choice, so a look-up of one takes logarithmic time
/// whatever they are.
#[derive(Drop)]
pub struct Handles {
    side: Side,
    passed: IndexSet<Handle>,
    kept: BTreeMap<i32, HandleKind>,
}

impl Model for Handles {
    ghost use Rattle.handle_table.specs.Table.{Table};

    ghost Value = { Table };

    ghost view = { λ h. record {
      side = h.side;
      passed = h.passed.keys;
      kept = h.kept.entries;
    } };

    ghost use Rattle.handle_table.specs.Sound.{IsSound};

    ghost invariant = { λ h. IsSound (record {
      side = h.side;
      passed = h.passed.keys;
      kept = h.kept.entries;
    }) };
}

impl Handles {
    /// The table of a side that passed no handle and keeps no rid.
    pub fn new(alloc: Global, side: Side) -> Handles
        ensures fresh { result ≡ fresh_table side }
        ensures sound { IsSound result }
    {
        Handles {
            side,
            passed: IndexSet::new(alloc),
            kept: BTreeMap::new(alloc),
        }
    }

    /// The rid that a handle of this number was passed with. Where a file and a pipe's end of one
    /// number were passed, it is that of the pipe's end.
    pub fn rid_of(&self, number: i32) -> Option<i32>
        ensures { result ≡ rid_of_number self.now number }
    {
        let pipe = self.rid_of_handle(Handle {
            number,
            kind: HandleKind::PipeWrite,
        });
        pipe.or(self.rid_of_handle(Handle {
            number,
            kind: HandleKind::File,
        }))
    }

    // The rid that a handle was passed with.
    fn rid_of_handle(&self, h: Handle) -> Option<i32>
        ensures { result ≡ rid_of_handle self.now h }
    {
        match self.passed.get_index_of(&h) {
            Some(place) => Some(rid_at(self.side, place)),
            None => None,
        }
    }

    /// The seat that `pass` would give the handle now, or None exactly where it was not passed and
    /// no rid is left.
    pub fn foresee(&self, h: Handle) -> Option<Seat>
        ensures seat { result ≡ seat_for self.now h }
        ensures sound { IsSound self.now }
    {
        match self.passed.get_index_of(&h) {
            Some(place) => Some(seat_at(self.side, false, place)),
            None => {
                let place = self.passed.len();
                if place < MOST_HANDLES {
                    Some(seat_at(self.side, true, place))
                } else {
                    None
                }
            }
        }
    }

    /// Passes a handle, and answers its rid and whether that rid is new. A handle that was passed
    /// before keeps its rid. The error is want of memory, or that no rid is left for a new handle.
    pub fn pass(&mut self, h: Handle) -> Result<(i32, bool), AllocError>
        ensures answer { IfOk result (λ r. option_map answer_of (seat_for self.old h) ≡ Some r) }
        ensures after { OnOk result (self.new ≡ after_pass self.old h) }
        ensures err { OnErr result (self.new ≡ self.old) }
        ensures sound { IsSound self.new }
    {
        match self.foresee(h) {
            Some(seat) => {
                self.passed.insert(h)?;
                Ok((seat.rid, seat.is_new))
            }
            None => Err(AllocError),
        }
    }

    /// Keeps a rid that the other side opened, which isn't kept yet.
    pub fn took(&mut self, rid: i32, kind: HandleKind) -> Result<(), AllocError>
        requires { kind_of_rid self.old rid ≡ None }
        ensures ok { OnOk result (self.new ≡ after_took self.old rid kind) }
        ensures err { OnErr result (self.new ≡ self.old) }
        ensures sound { IsSound self.new }
    {
        self.kept.insert(rid, kind)?;
        Ok(())
    }

    /// The kind of a rid that the other side opened.
    pub fn kind_of(&self, rid: i32) -> Option<HandleKind>
        ensures { result ≡ kind_of_rid self.now rid }
    {
        self.kept.get(&rid).copied()
    }
}

// The seat at a place.
fn seat_at(side: Side, is_new: bool, place: usize) -> Seat
    requires { place < most_handles }
    ensures { result ≡ seat_at side is_new place }
{
    Seat {
        place,
        rid: rid_at(side, place),
        is_new,
    }
}

// The rid of the handle that was passed at a place.
fn rid_at(side: Side, place: usize) -> i32
    requires { place < most_handles }
    ensures { result ≡ rid_at side place }
{
    let count = place as i32 + 1;
    match side {
        Side::Near => count,
        Side::Far => -count,
    }
}
