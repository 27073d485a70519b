//! The taking half and its calls.

ghost use Rattle.std.specs.Prelude.{◌≡◌, slice_get, None, Some, MatchOption, IfErr, IfOk};
ghost use Rattle.pipe_relay.specs.Pipes.{has_rid};
ghost use Rattle.take_half.specs.TakeState.{no_frame_heard, tables_of, given_one};
ghost use Rattle.take_half.specs.Accepting.{Accepts, AcceptsAfter};

mod frames;

use crate::passing::Passing;
use half_model::{PeerOut, TakeFault};
use handle_table::Handles;
use mirror_pools::Sizes;
use pipe_relay::Pipes;
use std::alloc::{AllocError, Global};
use std::collections::VecDeque;
use std::marker::Model;
use transfer_frames::Frame;
use wl_objects::Objects;
use wp_outside::Side;

/// The direction of a proxy from the link to its peer: it takes the counted frames that the other
/// side made, and gives what they mean.
///
/// The objects, handles and pipes of a side are shared by its two halves, so each call that needs
/// them is lent them.
#[derive(Drop)]
pub struct TakeHalf {
    alloc: Global,
    side: Side,
    // The told sizes of the other side's files.
    sizes: Sizes,
    // What the messages of a frame change, but for the objects.
    passing: Passing,
    // What the peer is to be given.
    items: VecDeque<PeerOut>,
    // For what the half has failed.
    fault: Option<TakeFault>,
}

impl Model for TakeHalf {
    ghost use Rattle.take_half.specs.TakeState.{TakeState};

    ghost Value = { TakeState };

    ghost view = { λ half. record {
      side = half.side;
      taking = record {
        sizes = half.sizes;
        waiting = half.passing.waiting;
        held = half.passing.held;
      };
      items = half.items.items;
      fault = half.fault;
    } };
}

impl TakeHalf {
    /// The half of a side that heard no frame.
    ///
    /// # Errors
    /// Only where memory runs out.
    pub fn new(alloc: Global, side: Side) -> Result<TakeHalf, AllocError>
        ensures { IfOk result (λ half. half ≡ no_frame_heard side) }
    {
        Ok(TakeHalf {
            alloc,
            side,
            sizes: Sizes::new(alloc),
            passing: Passing::new(alloc),
            items: VecDeque::new(alloc),
            fault: None,
        })
    }

    /// Takes the next counted frame of the other side.
    ///
    /// # Errors
    /// The first cause to refuse the frame for what it says, or want of memory; the half has then
    /// failed for good, and answers the same from then on.
    pub fn accept(
        &mut self,
        frame: Frame,
        objects: &mut Objects,
        handles: &mut Handles,
        pipes: &mut Pipes,
    ) -> Result<(), TakeFault>
        requires side { handles.old.side ≡ self.old.side }
        ensures exact { AcceptsAfter self.old.fault result frame
            (tables_of objects.old handles.old pipes.old)
            (tables_of objects.new handles.new pipes.new) self.old self.new }
        ensures failed { IfErr result (λ fault. self.new.fault ≡ Some fault) }
        ensures same { self.new.side ≡ self.old.side }
        ensures table { handles.new.side ≡ handles.old.side }
    {
        match self.fault {
            Some(fault) => Err(fault),
            None => match self.hear(frame, objects, handles, pipes) {
                Ok(()) => Ok(()),
                Err(fault) => {
                    self.fault = Some(fault);
                    Err(fault)
                }
            },
        }
    }

    // Takes a frame, of a half that has not failed.
    fn hear(
        &mut self,
        frame: Frame,
        objects: &mut Objects,
        handles: &mut Handles,
        pipes: &mut Pipes,
    ) -> Result<(), TakeFault>
        requires side { handles.old.side ≡ self.old.side }
        ensures exact { Accepts result frame
            (tables_of objects.old handles.old pipes.old)
            (tables_of objects.new handles.new pipes.new) self.old self.new }
        ensures same { self.new.side ≡ self.old.side }
        ensures table { handles.new.side ≡ handles.old.side }
    {
        match frame {
            Frame::Protocol { messages } => self.hear_messages(messages, objects, handles),
            Frame::Inject { rids } => self.hear_rids(&rids, handles),
            Frame::OpenFile { rid, size } => self.open_file(rid, size, handles),
            Frame::ExtendFile { rid, size } => self.grow_file(rid, size),
            Frame::Fill {
                rid,
                start,
                end,
                bytes,
            } => self.fill_file(rid, start, end, bytes),
            Frame::OpenPipe { rid } => self.open_pipe(rid, handles, pipes),
            Frame::PipeTransfer { rid, bytes } => {
                self.hear_pipe(&Frame::PipeTransfer { rid, bytes }, pipes)
            }
            Frame::PipeShutR { rid } => self.hear_pipe(&Frame::PipeShutR { rid }, pipes),
            Frame::PipeShutW { rid } => self.hear_pipe(&Frame::PipeShutW { rid }, pipes),
            Frame::Ack { count: _ } => Ok(()),
            Frame::Restart {
                token: _,
                connection: _,
                received: _,
            } => Ok(()),
            Frame::Close { reason: _ } => Ok(()),
        }
    }

    /// The next item that the peer is to be given; None exactly where there is none, or where the
    /// half has failed. Takes no memory.
    pub fn next(&mut self) -> Option<PeerOut>
        ensures item { MatchOption self.old.fault
            (result ≡ slice_get self.old.items 0) (λ _. result ≡ None) }
        ensures rest { MatchOption self.old.fault
            (self.new ≡ given_one self.old) (λ _. self.new ≡ self.old) }
    {
        match self.fault {
            Some(_) => None,
            None => self.items.pop_front(),
        }
    }

    /// Whether the peer was given the write end of this pipe.
    pub fn holds(&self, rid: i32) -> bool
        ensures { result ≡ has_rid rid self.now.taking.held }
    {
        self.passing.holds(rid)
    }
}
