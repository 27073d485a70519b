//! What taking a message comes to, but for the copies of its blocks.

ghost use Rattle.std.specs.Prelude.{◌≡◌, IfOk, OnOk, option_map};
ghost use Rattle.wl_wire.specs.Wire.{object_of};
ghost use Rattle.half_model.specs.Planning.{limit_refusal, seen_from};
ghost use Rattle.half_model.specs.Shm.{told_by};
ghost use Rattle.half_model.specs.Showing.{after_deed};
ghost use Rattle.message_plans.specs.Making.{passing_in};
ghost use Rattle.message_plans.specs.Plans.{IsAllowed, IsPlanned, with_told};

use crate::before::frames_before;
use crate::filling::FilledBlocks;
use crate::frame_row::FrameRow;
use crate::made::PassedHandle;
use crate::shm::Shm;
use half_model::{Deed, HalfFault};
use std::alloc::{AllocError, Global};
use wl_objects::Objects;
use wl_wire::{Bytes, Message};
use wp_outside::Side;

/// The frames before the filled blocks, these blocks, and the message as the other side is to have
/// it, if it is.
#[derive(Drop)]
pub struct Planned {
    pub before: FrameRow,
    pub filling: FilledBlocks,
    pub shown: Option<Bytes>,
}

/// Does what a message does to what is known of shared memory, with the handle that it carries.
///
/// # Errors
/// The limit that its size would pass, or want of memory; the half is then to fail.
pub fn plan(
    alloc: Global,
    side: Side,
    shm: &mut Shm,
    objects: &mut Objects,
    message: &Message,
    deed: &Deed,
    passing: Option<PassedHandle>,
) -> Result<Planned, HalfFault>
    ensures limit { IsAllowed result (limit_refusal
        (told_by shm.old (object_of message.now) deed.now (option_map passing_in passing))
        shm.old.told) }
    ensures planned { IfOk result (IsPlanned shm.old objects.old.tracked (object_of message.now)
        deed.now (option_map passing_in passing)) }
    ensures seen { IfOk result (λ it. seen_from side objects.old message.now
        ≡ record { shown = it.shown; hidden = objects.new.hidden }) }
    ensures shm { OnOk result (shm.new ≡ after_deed objects.old.tracked (object_of message.now)
        deed.now (option_map passing_in passing)
        (with_told (object_of message.now) deed.now (option_map passing_in passing) shm.old)) }
    ensures tracked { objects.new.tracked ≡ objects.old.tracked }
{
    let object = message.object();
    let tell = shm.told_by(object, deed, passing);
    let grows = shm.tell(tell)?;
    let before = frames_before(alloc, passing, tell, grows)?;
    let filling = shm.follow(alloc, objects, object, deed, passing)?;
    let shown = seen_from(side, objects, message)?;
    Ok(Planned {
        before,
        filling,
        shown,
    })
}

// The far side shows the compositor's events as the registry's view has them, and the near side
// all requests as they are.
fn seen_from(
    side: Side,
    objects: &mut Objects,
    message: &Message,
) -> Result<Option<Bytes>, AllocError>
    ensures shown { IfOk result (λ shown. seen_from side objects.old message.now
        ≡ record { shown = shown; hidden = objects.new.hidden }) }
    ensures tracked { objects.new.tracked ≡ objects.old.tracked }
{
    let message = message.clone()?;
    match side {
        Side::Near => Ok(Some(message.into_bytes())),
        Side::Far => match objects.visible_event(message)? {
            Some(shown) => Ok(Some(shown.into_bytes())),
            None => Ok(None),
        },
    }
}
