//! The pipes that one side knows.

ghost use Rattle.std.specs.Prelude.{◌≡◌, true, false, OnOk, OnErr};
ghost use Rattle.pipe_relay.specs.Answers.{Tests, AnswersItem, AnswersFrame};
ghost use Rattle.pipe_relay.specs.Sound.{IsSound, IsNew};
ghost use Rattle.pipe_relay.specs.Pipes.{has_rid, no_pipes, with_own, with_other, is_no_end};
ghost use Rattle.pipe_relay.specs.Pipes.{after_item, is_of_pipe, end_cause, after_pipe_frame};

use crate::faults::PipeFault;
use std::alloc::{AllocError, Global};
use std::collections::BTreeSet;
use std::marker::Model;
use transfer_frames::Frame;
use wp_outside::{PipeItem, Side};

/// The pipes that one side knows, by their rids: which peer passed the write end, and which ends
/// are closed. The peer that passed the write end reads the pipe and owns it; the peer beside the
/// other proxy writes to it.
///
/// A rid is the other side's choice, so a look-up takes logarithmic time whatever the rids are.
#[derive(Drop)]
pub struct Pipes {
    // Passed by this side's peer; of those, the write end is closed, or this side's peer closed the
    // reading end.
    own: BTreeSet<i32>,
    ended: BTreeSet<i32>,
    left: BTreeSet<i32>,
    // Passed by the other side's peer; of those, this side's peer closed the write end, or the
    // reading end is closed.
    other: BTreeSet<i32>,
    closed: BTreeSet<i32>,
    shut: BTreeSet<i32>,
}

impl Model for Pipes {
    ghost use Rattle.pipe_relay.specs.Pipes.{PipesState};

    ghost Value = { PipesState };

    ghost view = { λ p. record {
      own = p.own.keys;
      ended = p.ended.keys;
      left = p.left.keys;
      other = p.other.keys;
      closed = p.closed.keys;
      shut = p.shut.keys;
    } };

    ghost use Rattle.pipe_relay.specs.Sound.{IsSound};

    ghost invariant = { λ p. IsSound (record {
      own = p.own.keys;
      ended = p.ended.keys;
      left = p.left.keys;
      other = p.other.keys;
      closed = p.closed.keys;
      shut = p.shut.keys;
    }) };
}

impl Pipes {
    /// No pipe of this side, which decides nothing: the call that opens a pipe says whose it is.
    /// Takes no memory.
    pub fn new(alloc: Global, _side: Side) -> Pipes
        ensures { result ≡ no_pipes }
    {
        Pipes {
            own: BTreeSet::new(alloc),
            ended: BTreeSet::new(alloc),
            left: BTreeSet::new(alloc),
            other: BTreeSet::new(alloc),
            closed: BTreeSet::new(alloc),
            shut: BTreeSet::new(alloc),
        }
    }

    /// This side's peer passes the write end of a pipe. A rid that is one of its pipes already
    /// changes nothing.
    ///
    /// # Errors
    /// Only where memory runs out; the pipes are then unchanged.
    pub fn open_own(&mut self, rid: i32) -> Result<(), AllocError>
        ensures ok { OnOk result (self.new ≡ with_own rid self.old) }
        ensures fresh { OnOk result (has_rid rid self.old.own ≡ false
            → IsNew rid self.new.own self.new.ended self.new.left) }
        ensures err { OnErr result (self.new ≡ self.old) }
        ensures sound { IsSound self.new }
    {
        self.own.insert(rid)?;
        Ok(())
    }

    /// The other side's peer passes the write end of a pipe. A rid that is one of its pipes already
    /// changes nothing.
    ///
    /// # Errors
    /// Only where memory runs out; the pipes are then unchanged.
    pub fn open_other(&mut self, rid: i32) -> Result<(), AllocError>
        ensures ok { OnOk result (self.new ≡ with_other rid self.old) }
        ensures fresh { OnOk result (has_rid rid self.old.other ≡ false
            → IsNew rid self.new.other self.new.closed self.new.shut) }
        ensures err { OnErr result (self.new ≡ self.old) }
        ensures sound { IsSound self.new }
    {
        self.other.insert(rid)?;
        Ok(())
    }

    /// What this side's peer does at an end, as the frame that tells the other side; None exactly
    /// where bytes or an end are dropped since the reader closed its end. An end that is dropped
    /// counts as closed all the same.
    ///
    /// # Errors
    /// Unknown exactly where the peer doesn't hold that end: the pipe isn't known here as one that
    /// it writes to, or for Shut as one that it owns, or it has closed that end; or want of memory.
    /// The pipes are then unchanged.
    pub fn from_peer(&mut self, item: &PipeItem) -> Result<Option<Frame>, PipeFault>
        ensures answer { AnswersItem self.old item.now result }
        ensures ok { OnOk result (self.new ≡ after_item self.old item.now) }
        ensures err { OnErr result (self.new ≡ self.old) }
        ensures sound { IsSound self.new }
    {
        match item {
            PipeItem::Bytes { pipe, bytes } => {
                if is_no_end(&self.other, &self.closed, pipe) {
                    return Err(PipeFault::Unknown);
                }
                if self.shut.contains(pipe) {
                    return Ok(None);
                }
                let bytes = bytes.clone()?;
                Ok(Some(Frame::PipeTransfer { rid: *pipe, bytes }))
            }
            PipeItem::End { pipe } => {
                if is_no_end(&self.other, &self.closed, pipe) {
                    return Err(PipeFault::Unknown);
                }
                self.closed.insert(*pipe)?;
                if self.shut.contains(pipe) {
                    return Ok(None);
                }
                Ok(Some(Frame::PipeShutW { rid: *pipe }))
            }
            PipeItem::Shut { pipe } => {
                if is_no_end(&self.own, &self.left, pipe) {
                    return Err(PipeFault::Unknown);
                }
                self.left.insert(*pipe)?;
                Ok(Some(Frame::PipeShutR { rid: *pipe }))
            }
        }
    }

    /// What a pipe frame of the other side says, as what this side's peer is given; None exactly
    /// where bytes or an end are dropped since the peer closed its reading end.
    ///
    /// # Errors
    /// Unknown exactly where the rid isn't known here as a pipe of which that end is the other
    /// side's, and then Shut exactly where the other side has closed that end; or want of memory.
    /// The pipes are then unchanged.
    pub fn from_link(&mut self, frame: &Frame) -> Result<Option<PipeItem>, PipeFault>
        requires { is_of_pipe frame.now ≡ true }
        ensures answer { AnswersFrame self.old frame.now result }
        ensures ok { OnOk result (self.new ≡ after_pipe_frame self.old frame.now) }
        ensures err { OnErr result (self.new ≡ self.old) }
        ensures sound { IsSound self.new }
    {
        match frame {
            Frame::PipeTransfer { rid, bytes } => {
                check_end(&self.own, &self.ended, rid)?;
                if self.left.contains(rid) {
                    return Ok(None);
                }
                let bytes = bytes.clone()?;
                Ok(Some(PipeItem::Bytes { pipe: *rid, bytes }))
            }
            Frame::PipeShutW { rid } => {
                check_end(&self.own, &self.ended, rid)?;
                self.ended.insert(*rid)?;
                if self.left.contains(rid) {
                    return Ok(None);
                }
                Ok(Some(PipeItem::End { pipe: *rid }))
            }
            Frame::PipeShutR { rid } => {
                check_end(&self.other, &self.shut, rid)?;
                self.shut.insert(*rid)?;
                Ok(Some(PipeItem::Shut { pipe: *rid }))
            }
            _ => unreachable!(),
        }
    }
}

// Whether a peer doesn't hold the end of a pipe, by the pipes of which it was given that end and
// those of which it has closed it.
fn is_no_end(given: &BTreeSet<i32>, closed: &BTreeSet<i32>, rid: &i32) -> bool
    ensures { result ≡ is_no_end given.now.keys closed.now.keys rid.now }
{
    !given.contains(rid) || closed.contains(rid)
}

// Tests a frame from an end of the other side, by the pipes of which it has that end and those of
// which it has closed it.
fn check_end(given: &BTreeSet<i32>, closed: &BTreeSet<i32>, rid: &i32) -> Result<(), PipeFault>
    ensures { Tests result (end_cause given.now.keys closed.now.keys rid.now) }
{
    if !given.contains(rid) {
        return Err(PipeFault::Unknown);
    }
    if closed.contains(rid) {
        return Err(PipeFault::Shut);
    }
    Ok(())
}
