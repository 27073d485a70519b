//! A taking half with the tables of its side, and its peer.
//!
//! What can fail stands in methods that borrow a taker, so that it is let go in one place alone.

ghost use Rattle.std.specs.Prelude.{◌≡◌};
ghost use Rattle.take_half.specs.Receipts.{is_receipt};

use crate::calls::{accept, new_taking, next_item, no_handles};
use half_model::{PeerOut, TakeFault};
use handle_table::Handles;
use pipe_relay::Pipes;
use std::alloc::{AllocError, Global};
use take_half::{PeerRecord, TakeHalf};
use transfer_frames::Frame;
use wl_objects::Objects;
use wp_outside::Side;

/// A taking half, the tables of its side, and what its peer received.
#[derive(Drop)]
pub struct Taker {
    half: TakeHalf,
    objects: Objects,
    handles: Handles,
    pipes: Pipes,
    peer: PeerRecord,
    ghost one_side: { handles.side ≡ half.side },
}

impl Taker {
    /// The side of a peer that received nothing.
    pub fn new(alloc: Global, side: Side) -> Result<Taker, AllocError> {
        let objects = Objects::new(alloc)?;
        let half = new_taking(alloc, side)?;
        Ok(Taker {
            half,
            objects,
            handles: no_handles(alloc, side),
            pipes: Pipes::new(alloc, side),
            peer: PeerRecord::new(alloc),
        })
    }

    /// Takes a frame of the other side.
    pub fn accept(&mut self, frame: Frame) -> Result<(), TakeFault> {
        accept(
            &mut self.half,
            frame,
            &mut self.objects,
            &mut self.handles,
            &mut self.pipes,
        )
    }

    /// The next item for the peer.
    pub fn next(&mut self) -> Option<PeerOut> {
        next_item(&mut self.half)
    }

    /// The peer receives an item; it keeps no receipt.
    pub fn receive(&mut self, item: PeerOut) -> Result<(), AllocError> {
        if is_receipt(&item) {
            return Ok(());
        }
        self.peer.take(item)
    }
}

fn is_receipt(item: &PeerOut) -> bool
    ensures { result ≡ is_receipt item.now }
{
    matches!(item, PeerOut::Receipt { .. })
}

/// Lets a taker go: the one place where the proof follows what it owns.
pub fn let_go(_taker: Taker) {}
