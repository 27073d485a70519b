//! The calls of the two halves, with just what a sender and a taker rest on.

ghost use Rattle.std.specs.Prelude.{◌≡◌, None, OnOk, IfOk, IfSome};
ghost use Rattle.copy_workers.specs.Copies.{IsReady};
ghost use Rattle.send_half.specs.Treating.{IsFed};

use copy_workers::{CopyDone, CopyJob};
use half_model::{FileReceipt, HalfFault, Noted, PeerIn, PeerOut, TakeFault};
use handle_table::Handles;
use pipe_relay::Pipes;
use send_half::SendHalf;
use std::alloc::{AllocError, Global};
use take_half::TakeHalf;
use transfer_frames::Frame;
use wl_objects::Objects;
use wp_outside::Side;

/// The sending half of a side whose peer said nothing.
pub fn new_sending(alloc: Global, side: Side) -> Result<SendHalf, AllocError>
    ensures side { IfOk result (λ half. half.side ≡ side) }
    ensures running { IfOk result (λ half. half.fault ≡ None) }
{
    SendHalf::new(alloc, side)
}

/// The taking half of a side that heard nothing.
pub fn new_taking(alloc: Global, side: Side) -> Result<TakeHalf, AllocError>
    ensures { IfOk result (λ half. half.side ≡ side) }
{
    TakeHalf::new(alloc, side)
}

/// No handle of a side.
pub fn no_handles(alloc: Global, side: Side) -> Handles
    ensures { result.side ≡ side }
{
    Handles::new(alloc, side)
}

/// An item that the peer put on its wire.
pub fn feed(half: &mut SendHalf, item: PeerIn) -> Result<(), AllocError>
    requires running { half.old.fault ≡ None }
    requires fed { IsFed item }
    ensures running { OnOk result (half.new.fault ≡ None) }
    ensures same { half.new.side ≡ half.old.side }
{
    half.feed(item)
}

/// The next message, if there is one.
pub fn treat(
    half: &mut SendHalf,
    objects: &mut Objects,
    handles: &mut Handles,
    pipes: &mut Pipes,
) -> Result<bool, HalfFault>
    requires side { handles.old.side ≡ half.old.side }
    ensures running { OnOk result (half.new.fault ≡ None) }
    ensures same { half.new.side ≡ half.old.side }
    ensures kept { handles.new.side ≡ handles.old.side }
{
    half.treat(objects, handles, pipes)
}

/// The next copy that is to be made.
pub fn next_copy(half: &mut SendHalf) -> Option<CopyJob>
    requires { half.old.fault ≡ None }
    ensures ready { IfSome result IsReady }
    ensures running { half.new.fault ≡ None }
    ensures same { half.new.side ≡ half.old.side }
{
    half.next_copy()
}

/// A copy that is made. One that is not awaited counts as want of memory here.
pub fn copy_done(half: &mut SendHalf, done: CopyDone) -> Result<(), AllocError>
    requires { half.old.fault ≡ None }
    ensures running { OnOk result (half.new.fault ≡ None) }
    ensures same { half.new.side ≡ half.old.side }
{
    if !half.awaits(&done) {
        return Err(AllocError);
    }
    half.copy_done(done)
}

/// The next frame that was made.
pub fn next_frame(half: &mut SendHalf) -> Option<Frame>
    requires { half.old.fault ≡ None }
    ensures running { half.new.fault ≡ None }
    ensures same { half.new.side ≡ half.old.side }
{
    half.next_frame()
}

/// The next receipt of a copy.
pub fn next_receipt(half: &mut SendHalf) -> Option<FileReceipt>
    requires { half.old.fault ≡ None }
    ensures running { half.new.fault ≡ None }
    ensures same { half.new.side ≡ half.old.side }
{
    half.next_receipt()
}

/// What was noted next.
pub fn noted(half: &mut SendHalf) -> Option<Noted>
    ensures fault { half.new.fault ≡ half.old.fault }
    ensures same { half.new.side ≡ half.old.side }
{
    half.noted()
}

/// A frame of the other side.
pub fn accept(
    half: &mut TakeHalf,
    frame: Frame,
    objects: &mut Objects,
    handles: &mut Handles,
    pipes: &mut Pipes,
) -> Result<(), TakeFault>
    requires side { handles.old.side ≡ half.old.side }
    ensures same { half.new.side ≡ half.old.side }
    ensures kept { handles.new.side ≡ handles.old.side }
{
    half.accept(frame, objects, handles, pipes)
}

/// The next item for the peer.
pub fn next_item(half: &mut TakeHalf) -> Option<PeerOut>
    ensures { half.new.side ≡ half.old.side }
{
    half.next()
}
