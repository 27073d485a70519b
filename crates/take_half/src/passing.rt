//! What the messages of a frame change beside the objects: the rids that wait, the write ends that
//! the peer holds, and what the peer is to be given.

ghost use Rattle.std.specs.Prelude.{◌≡◌, ◌++◌, ◌∷◌, [], ◌↔◌, IsTrue, IfErr, OnOk};
ghost use Rattle.half_model.specs.declared.causes.TakeFault.TheVariants.{Memory};
ghost use Rattle.half_model.specs.declared.items.PeerOut.TheVariants as items;
ghost use Rattle.pipe_relay.specs.Pipes.{has_rid};
ghost use Rattle.wl_objects.specs.Entries.{Tracked};
ghost use Rattle.wl_objects.specs.Tracking.{step};
ghost use Rattle.half_model.specs.Content.{has_kind, with_held, passed_with, passed_by_kind, passed_step, pass_all};
ghost use Rattle.take_half.specs.Passages.{no_passage, passage, Passes};

use half_model::{PeerOut, TakeFault};
use handle_table::{Handle, Handles};
use std::alloc::{AllocError, Global};
use std::collections::{BTreeSet, VecDeque};
use std::marker::Model;
use transfer_frames::FrameCause;
use wl_objects::{Objects, PassFault};
use wl_tables::{Way, handle_kind};
use wl_wire::{Message, MessageList};
use wp_outside::HandleKind;

/// The rids that wait for their messages, the oldest first; the pipes whose write end the peer was
/// given; and what the peer is to be given of a frame's messages.
#[derive(Drop)]
pub(crate) struct Passing {
    waiting: VecDeque<i32>,
    held: BTreeSet<i32>,
    given: VecDeque<PeerOut>,
}

impl Model for Passing {
    ghost use Rattle.take_half.specs.Passages.{PassingState};

    ghost Value = { PassingState };

    ghost view = { λ p. record {
      waiting = p.waiting.items;
      held = p.held.keys;
      given = p.given.items;
    } };
}

impl Passing {
    /// No rid waits and nothing is to be given. Takes no memory.
    pub(crate) fn new(alloc: Global) -> Passing
        ensures { result ≡ no_passage }
    {
        Passing {
            waiting: VecDeque::new(alloc),
            held: BTreeSet::new(alloc),
            given: VecDeque::new(alloc),
        }
    }

    /// Whether the peer was given the write end of this pipe.
    pub(crate) fn holds(&self, rid: i32) -> bool
        ensures { result ≡ has_rid rid self.now.held }
    {
        self.held.contains(&rid)
    }

    /// Whether no rid waits.
    pub(crate) fn none_waits(&self) -> bool
        ensures { IsTrue result ↔ (self.now.waiting ≡ []) }
    {
        self.waiting.is_empty()
    }

    /// Forgets what is to be given.
    pub(crate) fn begin(&mut self)
        ensures { self.new ≡ record self.old { given = [] } }
    {
        self.given.clear();
    }

    /// Puts rids behind those that wait.
    pub(crate) fn wait_for(&mut self, rids: &[i32]) -> Result<(), AllocError>
        ensures { OnOk result (self.new
            ≡ record self.old { waiting = self.old.waiting ++ rids.now }) }
    {
        for rid in rids {
            self.waiting.push_back(*rid)?;
        }
        Ok(())
    }

    /// Moves what is to be given behind other items.
    pub(crate) fn give_to(&mut self, items: &mut VecDeque<PeerOut>) -> Result<(), AllocError>
        ensures given { OnOk result (items.new.items ≡ items.old.items ++ self.old.given) }
        ensures rest { OnOk result (self.new ≡ record self.old { given = [] }) }
    {
        items.append(&mut self.given)
    }

    // A message without a handle.
    fn pass_alone(&mut self, message: Message) -> Result<(), TakeFault>
        ensures ok { OnOk result (self.new
            ≡ record self.old { given = self.old.given ++ items.Bytes message ∷ [] }) }
        ensures err { IfErr result (λ fault. fault ≡ Memory) }
    {
        self.given.push_back(PeerOut::Bytes(message.into_bytes()))?;
        Ok(())
    }

    // A message with the oldest rid that waits.
    fn pass_with(
        &mut self,
        kind: HandleKind,
        message: Message,
        handles: &Handles,
    ) -> Result<(), TakeFault>
        ensures { (tracked : Tracked) → Passes result
            (passed_with tracked message kind (passage tracked self.old) handles.now self.old.waiting)
            (passage tracked self.new) }
    {
        let Some(rid) = self.waiting.pop_front() else {
            return Err(TakeFault::Frame(FrameCause::RidCount));
        };
        if !has_kind(kind, handles.kind_of(rid)) {
            return Err(TakeFault::Frame(FrameCause::RidCount));
        }
        self.hold(kind, rid)?;
        let handle = Handle { number: rid, kind };
        self.given.push_back(PeerOut::Handle(handle))?;
        self.given.push_back(PeerOut::Bytes(message.into_bytes()))?;
        Ok(())
    }

    // The peer holds the write end of a pipe that it is given.
    fn hold(&mut self, kind: HandleKind, rid: i32) -> Result<(), TakeFault>
        ensures ok { OnOk result (self.new
            ≡ record self.old { held = with_held kind rid self.old.held }) }
        ensures err { IfErr result (λ fault. fault ≡ Memory) }
    {
        match kind {
            HandleKind::File => Ok(()),
            HandleKind::PipeWrite => {
                self.held.insert(rid)?;
                Ok(())
            }
        }
    }

    // A message with the handle that it carries, if it carries one.
    fn pass_by_kind(
        &mut self,
        kind: Option<HandleKind>,
        message: Message,
        handles: &Handles,
    ) -> Result<(), TakeFault>
        ensures { (tracked : Tracked) → Passes result
            (passed_by_kind kind tracked message (passage tracked self.old) handles.now)
            (passage tracked self.new) }
    {
        match kind {
            Some(kind) => self.pass_with(kind, message, handles),
            None => self.pass_alone(message),
        }
    }

    // One message: tracking goes first, then its rid.
    fn pass_one(
        &mut self,
        way: Way,
        message: Message,
        objects: &mut Objects,
        handles: &Handles,
    ) -> Result<(), TakeFault>
        ensures passes { Passes result
            (passed_step (step way objects.old.tracked message) way message
            (passage objects.old.tracked self.old) handles.now)
            (passage objects.new.tracked self.new) }
        ensures hidden { objects.new.hidden ≡ objects.old.hidden }
    {
        match objects.track(way, &message) {
            Ok(interface) => {
                let kind = handle_kind(interface, way.is_event(), message.opcode());
                self.pass_by_kind(kind, message, handles)
            }
            Err(PassFault::Object(fault)) => {
                Err(TakeFault::Frame(FrameCause::PeerMessage(fault)))
            }
            Err(PassFault::Memory) => Err(TakeFault::Memory),
        }
    }

    /// Messages in order.
    pub(crate) fn pass_all(
        &mut self,
        way: Way,
        messages: MessageList,
        objects: &mut Objects,
        handles: &Handles,
    ) -> Result<(), TakeFault>
        ensures passes { Passes result
            (pass_all way handles.now messages (passage objects.old.tracked self.old))
            (passage objects.new.tracked self.new) }
        ensures hidden { objects.new.hidden ≡ objects.old.hidden }
    {
        for message in messages.into_vec() {
            self.pass_one(way, message, objects, handles)?;
        }
        Ok(())
    }
}

// Whether a rid that was found to be of a kind, if it was found, is of this one.
fn has_kind(kind: HandleKind, found: Option<HandleKind>) -> bool
    ensures { result ≡ has_kind kind found }
{
    match found {
        Some(other) => kind == other,
        None => false,
    }
}
