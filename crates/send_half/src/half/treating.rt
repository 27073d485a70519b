//! How the half takes a message, stage by stage. Each stage acts on what the stage before it left.

ghost use Rattle.std.specs.Prelude.{◌≡◌, OnOk, OnErr, IfOk, IfSome, option_map};
ghost use Rattle.wl_wire.specs.Wire.{first};
ghost use Rattle.wl_tables.specs.Ways.{own_way};
ghost use Rattle.wl_objects.specs.Tracking.{step};
ghost use Rattle.half_model.specs.declared.causes.HalfFault.TheVariants as faults;
ghost use Rattle.wl_objects.specs.Registry.{ObjectsState};
ghost use Rattle.half_model.specs.Planning.{handle_refusal, kind_carried, passed_with, with_pipe};
ghost use Rattle.half_model.specs.Shm.{passing_of};
ghost use Rattle.half_model.specs.Turn.{turn_front};
ghost use Rattle.message_plans.specs.Making.{passing_in};
ghost use Rattle.send_half.specs.SendState.{tables_of, next_turn, message_taken};
ghost use Rattle.send_half.specs.Stages.{turn_taken, turn_passed, turn_handled, turn_passing};
ghost use Rattle.send_half.specs.Stages.{turn_done, admission};
ghost use Rattle.send_half.specs.Treating.{TreatsFront, Goes, Stays, IfRefused};

use super::SendHalf;
use half_model::{HalfFault, PeerCause, is_own};
use handle_table::{Handle, Handles};
use message_plans::{PassedHandle, Planned, deed_of, is_new_pipe, plan};
use owed_groups::{Copies, OwedGroup, Owing, owing_for};
use pipe_relay::Pipes;
use shm_pools::Note;
use std::alloc::AllocError;
use wl_objects::{Objects, PassFault, Passed};
use wl_tables::{Way, handle_kind};
use wl_wire::{Message, MessageFault, ObjectFault};
use wp_outside::{HandleKind, Side};

impl SendHalf {
    // What comes next: nothing while a copy is waited for, or a frame that was made is not taken.
    #[tactic(auto, using(crate::proofs::TurnLemmas::next_is, crate::proofs::TurnLemmas::idle_owes, crate::proofs::TurnLemmas::idle_frames, crate::proofs::TurnLemmas::front_next))]
    pub(super) fn treat_next(
        &mut self,
        objects: &mut Objects,
        handles: &mut Handles,
        pipes: &mut Pipes,
    ) -> Result<bool, HalfFault>
        requires side { handles.old.side ≡ self.old.side }
        ensures exact { TreatsFront result
            (next_turn (tables_of objects.old handles.old pipes.old) self.old)
            (tables_of objects.old handles.old pipes.old)
            (tables_of objects.new handles.new pipes.new) self.old self.new }
        ensures kept { handles.new.side ≡ handles.old.side }
    {
        if self.owed.is_some() {
            return Ok(false);
        }
        if self.outbox.has_frames() {
            return Ok(false);
        }
        self.treat_front(objects, handles, pipes)
    }

    // What stands at the front of the bytes, of a half that owes nothing.
    #[tactic(auto, using(crate::proofs::PassLemmas::front_taken_is, crate::proofs::PassLemmas::front_refused_is))]
    fn treat_front(
        &mut self,
        objects: &mut Objects,
        handles: &mut Handles,
        pipes: &mut Pipes,
    ) -> Result<bool, HalfFault>
        requires side { handles.old.side ≡ self.old.side }
        ensures exact { TreatsFront result
            (turn_front (tables_of objects.old handles.old pipes.old) self.old.sending
            (first self.old.sending.inlet.bytes))
            (tables_of objects.old handles.old pipes.old)
            (tables_of objects.new handles.new pipes.new) self.old self.new }
        ensures kept { handles.new.side ≡ handles.old.side }
    {
        match self.inlet.next_message() {
            Ok(Some(message)) => match self.treat_message(message, objects, handles, pipes) {
                Ok(()) => Ok(true),
                Err(fault) => Err(fault),
            },
            Ok(None) => Ok(false),
            Err(MessageFault::Wire(fault)) => {
                Err(self.refusal(PeerCause::Object(ObjectFault::Wire(fault))))
            }
            Err(MessageFault::Memory) => Err(HalfFault::Memory),
        }
    }

    // A message that was taken out of the bytes: tracking lets it pass, or not.
    #[tactic(auto, using(crate::proofs::PassLemmas::goes_tracked, crate::proofs::PassLemmas::refuses_tracked))]
    fn treat_message(
        &mut self,
        message: Message,
        objects: &mut Objects,
        handles: &mut Handles,
        pipes: &mut Pipes,
    ) -> Result<(), HalfFault>
        requires side { handles.old.side ≡ self.old.side }
        ensures exact { Goes result
            (turn_taken (tables_of objects.old handles.old pipes.old) self.old.sending message
            (step (own_way handles.old.side) objects.old.tracked message))
            (tables_of objects.old handles.old pipes.old)
            (tables_of objects.new handles.new pipes.new) self.old self.new }
        ensures kept { handles.new.side ≡ handles.old.side }
    {
        match objects.pass(Way::of_peer(self.side), &message) {
            Ok(passed) => self.treat_passed(message, passed, objects, handles, pipes),
            Err(PassFault::Object(fault)) => Err(self.refusal(PeerCause::Object(fault))),
            Err(PassFault::Memory) => Err(HalfFault::Memory),
        }
    }

    // A message that tracking let pass takes its handle.
    #[tactic(auto, using(crate::proofs::PassLemmas::refuses_handle))]
    fn treat_passed(
        &mut self,
        message: Message,
        passed: Passed,
        objects: &mut Objects,
        handles: &mut Handles,
        pipes: &mut Pipes,
    ) -> Result<(), HalfFault>
        requires side { handles.old.side ≡ self.old.side }
        ensures exact { Goes result
            (turn_passed (tables_of objects.old handles.old pipes.old) self.old.sending message
            (admission passed objects.old.tracked))
            (tables_of objects.old handles.old pipes.old)
            (tables_of objects.new handles.new pipes.new) self.old self.new }
        ensures kept { handles.new.side ≡ handles.old.side }
    {
        let kind = kind_carried(Way::of_peer(self.side), &passed);
        let handle = self.inlet.take_handle_for(kind);
        match check_handle(self.side, kind, handle) {
            Ok(()) => self.treat_handled(message, passed, handle, objects, handles, pipes),
            Err(cause) => Err(self.refusal(cause)),
        }
    }

    // A message with its handle, which passed the tests, is given the handle's rid.
    #[tactic(auto, using(crate::proofs::PassLemmas::goes_found))]
    fn treat_handled(
        &mut self,
        message: Message,
        passed: Passed,
        handle: Option<Handle>,
        objects: &mut Objects,
        handles: &mut Handles,
        pipes: &mut Pipes,
    ) -> Result<(), HalfFault>
        requires side { handles.old.side ≡ self.old.side }
        ensures exact { Goes result
            (turn_handled (tables_of objects.old handles.old pipes.old) self.old.sending message
            (admission passed objects.old.tracked) handle)
            (tables_of objects.old handles.old pipes.old)
            (tables_of objects.new handles.new pipes.new) self.old self.new }
        ensures kept { handles.new.side ≡ handles.old.side }
    {
        match handle {
            Some(handle) => match passing_of(handles, handle) {
                Some(it) => self.treat_passing(message, passed, Some(it), objects, handles, pipes),
                None => Err(HalfFault::Memory),
            },
            None => self.treat_passing(message, passed, None, objects, handles, pipes),
        }
    }

    // A message whose handle has a rid takes its note, tells its size, and does what it does.
    fn treat_passing(
        &mut self,
        message: Message,
        passed: Passed,
        passing: Option<PassedHandle>,
        objects: &mut Objects,
        handles: &mut Handles,
        pipes: &mut Pipes,
    ) -> Result<(), HalfFault>
        requires side { handles.old.side ≡ self.old.side }
        ensures exact { Goes result
            (turn_passing (tables_of objects.old handles.old pipes.old) self.old.sending message
            (admission passed objects.old.tracked) (option_map (λ it. it.handle) passing)
            (option_map passing_in passing))
            (tables_of objects.old handles.old pipes.old)
            (tables_of objects.new handles.new pipes.new) self.old self.new }
        ensures kept { handles.new.side ≡ handles.old.side }
    {
        let deed = deed_of(Way::of_peer(self.side), &passed);
        let note = self.inlet.take_note_for(&deed);
        let planned = plan(
            self.alloc,
            self.side,
            &mut self.shm,
            objects,
            &message,
            &deed,
            passing,
        );
        match planned {
            Ok(planned) => self.treat_done(message, passing, note, planned, handles, pipes),
            Err(fault) => Err(fault),
        }
    }

    // A message whose deed is done waits for the copies of its blocks, and passes its handle.
    #[tactic(auto, using(crate::proofs::GoesLemmas::took_done, crate::proofs::GoesLemmas::not_covered))]
    fn treat_done(
        &mut self,
        message: Message,
        passing: Option<PassedHandle>,
        note: Option<Note>,
        planned: Planned,
        handles: &mut Handles,
        pipes: &mut Pipes,
    ) -> Result<(), HalfFault>
        ensures exact { (objects : ObjectsState) → Goes result
            (turn_done (tables_of objects handles.old pipes.old) self.old.sending message
            (option_map (λ it. it.handle) passing) (option_map passing_in passing) note
            planned.before planned.filling planned.shown)
            (tables_of objects handles.old pipes.old)
            (tables_of objects handles.new pipes.new) self.old self.new }
        ensures kept { handles.new.side ≡ handles.old.side }
    {
        let Planned {
            before,
            filling,
            shown,
        } = planned;
        let owing = owing_for(self.alloc, self.next_job, before, filling, shown, note)?;
        match owing {
            Some(Owing { owed, copies }) => {
                pass_handle(passing, handles, pipes)?;
                self.take(message, owed, copies)?;
                Ok(())
            }
            None => Err(self.refusal(PeerCause::NoteMissing)),
        }
    }

    // Counts a message, and keeps what is owed for it; makes its frames where no copy is waited
    // for.
    fn take(&mut self, message: Message, owed: OwedGroup, copies: Copies) -> Result<(), AllocError>
        ensures ok { OnOk result (self.new ≡ message_taken message owed copies self.old) }
        ensures err { OnErr result (Stays self.old self.new) }
    {
        let Some(taken) = self.taken.checked_add(1) else {
            return Err(AllocError);
        };
        let Some(next_job) = self.next_job.checked_add(copies.len() as u64) else {
            return Err(AllocError);
        };
        let mut copies = copies;
        if copies.all_back() {
            self.outbox.make_group(Some(message), owed, &mut copies)?;
            self.owed = None;
        } else {
            self.outbox.note_taken(message)?;
            self.owed = Some(owed);
        }
        self.copies = copies;
        self.taken = taken;
        self.next_job = next_job;
        Ok(())
    }

    // The fault of a message that is refused.
    fn refusal(&self, cause: PeerCause) -> HalfFault
        ensures { result ≡ faults.Peer self.now.sending.taken cause }
    {
        HalfFault::Peer {
            index: self.taken,
            cause,
        }
    }
}

// The kind of the handle that a message carries, by its row of the protocol's table.
fn kind_carried(way: Way, passed: &Passed) -> Option<HandleKind>
    ensures { result ≡ kind_carried way passed.now }
{
    handle_kind(passed.interface, way.is_event(), passed.opcode)
}

// Tests that a message has just the handle that its row of the table wants: of that kind, and the
// peer's own.
fn check_handle(
    side: Side,
    kind: Option<HandleKind>,
    handle: Option<Handle>,
) -> Result<(), PeerCause>
    ensures { IfRefused result (handle_refusal side kind handle) }
{
    match kind {
        Some(kind) => match handle {
            Some(handle) => {
                if handle.kind == kind && is_own(side, handle.number) {
                    Ok(())
                } else {
                    Err(PeerCause::HandleKind)
                }
            }
            None => Err(PeerCause::HandleMissing),
        },
        None => match handle {
            Some(_) => Err(PeerCause::HandleKind),
            None => Ok(()),
        },
    }
}

// A handle with the rid that it is passed with, while there is a rid for it.
fn passing_of(handles: &Handles, handle: Handle) -> Option<PassedHandle>
    ensures passing { option_map passing_in result ≡ passing_of handles.now handle }
    ensures handle { IfSome result (λ it. it.handle ≡ handle) }
{
    match handles.foresee(handle) {
        Some(seat) => Some(PassedHandle {
            handle,
            rid: seat.rid,
            is_new: seat.is_new,
        }),
        None => None,
    }
}

// Passes the handle of a message, if it carries one.
fn pass_handle(
    passing: Option<PassedHandle>,
    handles: &mut Handles,
    pipes: &mut Pipes,
) -> Result<(), AllocError>
    ensures handles { OnOk result (handles.new
        ≡ passed_with (option_map (λ it. it.handle) passing) handles.old) }
    ensures pipes { OnOk result (pipes.new ≡ with_pipe (option_map passing_in passing) pipes.old) }
    ensures kept { handles.new.side ≡ handles.old.side }
{
    if let Some(it) = passing {
        handles.pass(it.handle)?;
        if is_new_pipe(it) {
            pipes.open_own(it.rid)?;
        }
    }
    Ok(())
}
