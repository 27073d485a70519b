//! A sending half with the tables of its side.
//!
//! What can fail stands in methods that borrow a sender, so that it is let go in one place alone.

ghost use Rattle.std.specs.Prelude.{◌≡◌, None};
ghost use Rattle.send_half.specs.Treating.{IsFed};

use crate::calls::{
    copy_done, feed, new_sending, next_copy, next_frame, next_receipt, no_handles, noted, treat,
};
use copy_workers::{CopyDone, copy_one};
use half_model::{FileReceipt, HalfFault, Noted, PeerIn};
use handle_table::Handles;
use pipe_relay::Pipes;
use send_half::SendHalf;
use std::alloc::{AllocError, Global};
use transfer_frames::Frame;
use wl_objects::Objects;
use wp_outside::Side;

/// A sending half, the tables of its side, and for what it has failed.
#[derive(Drop)]
pub struct Sender {
    half: SendHalf,
    objects: Objects,
    handles: Handles,
    pipes: Pipes,
    fault: Option<HalfFault>,
    ghost one_side: { handles.side ≡ half.side },
    ghost runs: { fault ≡ None → half.fault ≡ None },
}

impl Sender {
    /// The side of a peer that said nothing.
    pub fn new(alloc: Global, side: Side) -> Result<Sender, AllocError> {
        let objects = Objects::new(alloc)?;
        let half = new_sending(alloc, side)?;
        Ok(Sender {
            half,
            objects,
            handles: no_handles(alloc, side),
            pipes: Pipes::new(alloc, side),
            fault: None,
        })
    }

    /// Takes what the peer puts on its wire.
    pub fn feed(&mut self, item: PeerIn) -> Result<(), HalfFault>
        requires { IsFed item }
    {
        if let Some(fault) = self.fault {
            return Err(fault);
        }
        match feed(&mut self.half, item) {
            Ok(()) => Ok(()),
            Err(_) => {
                self.fault = Some(HalfFault::Memory);
                Err(HalfFault::Memory)
            }
        }
    }

    /// Treats the next message, if there is one.
    pub fn treat(&mut self) -> Result<bool, HalfFault> {
        match treat(
            &mut self.half,
            &mut self.objects,
            &mut self.handles,
            &mut self.pipes,
        ) {
            Ok(taken) => Ok(taken),
            Err(fault) => {
                self.fault = Some(fault);
                Err(fault)
            }
        }
    }

    /// Makes the next copy, if one waits.
    pub fn copy(&mut self) -> Result<bool, HalfFault> {
        if let Some(fault) = self.fault {
            return Err(fault);
        }
        match next_copy(&mut self.half) {
            Some(job) => {
                self.hand_back(copy_one(job))?;
                Ok(true)
            }
            None => Ok(false),
        }
    }

    // Hands a copy back.
    fn hand_back(&mut self, done: CopyDone) -> Result<(), HalfFault> {
        if let Some(fault) = self.fault {
            return Err(fault);
        }
        match copy_done(&mut self.half, done) {
            Ok(()) => Ok(()),
            Err(_) => {
                self.fault = Some(HalfFault::Memory);
                Err(HalfFault::Memory)
            }
        }
    }

    /// The next frame that was made.
    pub fn next_frame(&mut self) -> Option<Frame> {
        if self.fault.is_some() {
            return None;
        }
        next_frame(&mut self.half)
    }

    /// The next receipt of a copy.
    pub fn next_receipt(&mut self) -> Option<FileReceipt> {
        if self.fault.is_some() {
            return None;
        }
        next_receipt(&mut self.half)
    }

    /// What was noted next.
    pub fn noted(&mut self) -> Option<Noted> {
        noted(&mut self.half)
    }
}

/// Lets a sender go: the one place where the proof follows what it owns.
pub fn let_go(_sender: Sender) {}
