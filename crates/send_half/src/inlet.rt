//! What the peer put on its wire and no taken message used.

ghost use Rattle.std.specs.Prelude.{◌≡◌, OnOk, OnErr, IfOk};
ghost use Rattle.wl_wire.specs.Framing.{Answers};
ghost use Rattle.wl_wire.specs.Wire.{first};
ghost use Rattle.half_model.specs.Turn.{stands_in};
ghost use Rattle.half_model.specs.Inlet.{no_inlet, with_bytes, with_item, ready, without_ready};
ghost use Rattle.send_half.specs.Stages.{handle_in, without_handle, note_in, without_note};
ghost use Rattle.send_half.specs.Treating.{IsFed, front_taken};

use half_model::{Deed, PeerIn};
use handle_table::Handle;
use shm_pools::Note;
use std::alloc::{AllocError, Global};
use std::collections::VecDeque;
use std::marker::Model;
use wl_wire::{Bytes, Framer, Message, MessageFault};
use wp_outside::HandleKind;

/// The bytes, handles and notes that wait. A handle and a note serve a message whose last byte was
/// fed behind them, so each stands with the count of bytes that were fed before it.
#[derive(Drop)]
pub(crate) struct Waiting {
    unread: Framer,
    // How many bytes were fed in all, and how many of these were taken.
    fed: u64,
    taken: u64,
    handles: VecDeque<(u64, Handle)>,
    notes: VecDeque<(u64, Note)>,
}

impl Model for Waiting {
    ghost use Rattle.std.specs.Prelude.{◌≡◌, ◌+◌, length};
    ghost use Rattle.half_model.specs.Inlet.{Inlet};

    ghost Value = { Inlet };

    ghost view = { λ w. record {
      bytes = w.unread;
      fed = w.fed;
      taken = w.taken;
      handles = w.handles.items;
      notes = w.notes.items;
    } };

    ghost invariant = { λ w. w.taken + length w.unread ≡ w.fed };
}

impl Waiting {
    /// Nothing waits. Takes no memory.
    pub(crate) fn new(alloc: Global) -> Waiting
        ensures { result ≡ no_inlet }
    {
        Waiting {
            unread: Framer::new(alloc),
            fed: 0,
            taken: 0,
            handles: VecDeque::new(alloc),
            notes: VecDeque::new(alloc),
        }
    }

    /// Whether a whole message, or a size at fault, stands at the front. Takes no memory.
    #[tactic(auto, using(crate::proofs::TurnLemmas::stands_is))]
    pub(crate) fn stands(&self) -> bool
        ensures { result ≡ stands_in (first self.now.bytes) }
    {
        self.unread.stands()
    }

    /// Puts an item behind those that wait. The count of bytes has 64 bits.
    ///
    /// # Errors
    /// Only where memory runs out; nothing is then changed.
    pub(crate) fn feed(&mut self, item: PeerIn) -> Result<(), AllocError>
        requires { IsFed item }
        ensures ok { OnOk result (self.new ≡ with_item item self.old) }
        ensures err { OnErr result (self.new ≡ self.old) }
    {
        match item {
            PeerIn::Bytes(piece) => self.feed_bytes(&piece),
            PeerIn::Handle(handle) => {
                self.handles.push_back((self.fed, handle))?;
                Ok(())
            }
            PeerIn::Note(note) => {
                self.notes.push_back((self.fed, note))?;
                Ok(())
            }
            PeerIn::Pipe(_) => Ok(()),
        }
    }

    // One more piece of the bytes.
    fn feed_bytes(&mut self, piece: &Bytes) -> Result<(), AllocError>
        ensures ok { OnOk result (self.new ≡ with_bytes piece.now self.old) }
        ensures err { OnErr result (self.new ≡ self.old) }
    {
        match self.fed.checked_add(piece.len() as u64) {
            Some(fed) => {
                self.unread.feed(piece.as_slice())?;
                self.fed = fed;
                Ok(())
            }
            None => Err(AllocError),
        }
    }

    /// Takes the message at the front out of the bytes.
    ///
    /// # Errors
    /// The fault of the size at the front, or want of memory; nothing is then changed.
    pub(crate) fn next_message(&mut self) -> Result<Option<Message>, MessageFault>
        ensures exact { Answers result (first self.old.bytes) }
        ensures ok { IfOk result (λ front. self.new ≡ front_taken front self.old) }
        ensures err { OnErr result (self.new ≡ self.old) }
    {
        match self.unread.next_message() {
            Ok(Some(message)) => {
                self.taken += message.bytes().len() as u64;
                Ok(Some(message))
            }
            Ok(None) => Ok(None),
            Err(fault) => Err(fault),
        }
    }

    /// Takes the handle of a message that carries one of this kind, if it waits.
    pub(crate) fn take_handle_for(&mut self, kind: Option<HandleKind>) -> Option<Handle>
        ensures handle { result ≡ handle_in kind self.old }
        ensures rest { self.new ≡ without_handle kind self.old }
    {
        match kind {
            Some(_) => self.take_handle(),
            None => None,
        }
    }

    /// Takes the note of a commit or a keymap, if it waits.
    pub(crate) fn take_note_for(&mut self, deed: &Deed) -> Option<Note>
        ensures note { result ≡ note_in deed.now self.old }
        ensures rest { self.new ≡ without_note deed.now self.old }
    {
        match deed {
            Deed::Commit => self.take_note(),
            Deed::Keymap { size: _ } => self.take_note(),
            _ => None,
        }
    }

    // Takes the oldest handle, where it was fed before the last byte that was taken.
    fn take_handle(&mut self) -> Option<Handle>
        ensures handle { result ≡ ready self.old.taken self.old.handles }
        ensures rest { self.new ≡ record self.old {
          handles = without_ready self.old.taken self.old.handles;
        } }
    {
        pop_ready(self.taken, &mut self.handles)
    }

    // Takes the oldest note, where it was fed before the last byte that was taken.
    fn take_note(&mut self) -> Option<Note>
        ensures note { result ≡ ready self.old.taken self.old.notes }
        ensures rest { self.new ≡ record self.old {
          notes = without_ready self.old.taken self.old.notes;
        } }
    {
        pop_ready(self.taken, &mut self.notes)
    }
}

// Takes the oldest item of a queue, where it was fed before so many bytes.
fn pop_ready<T: Drop>(end: u64, queue: &mut VecDeque<(u64, T)>) -> Option<T>
    ensures item { result ≡ ready end queue.old.items }
    ensures rest { queue.new.items ≡ without_ready end queue.old.items }
{
    let is_ready = match queue.front() {
        Some(oldest) => oldest.0 < end,
        None => false,
    };
    if !is_ready {
        return None;
    }
    match queue.pop_front() {
        Some(oldest) => Some(oldest.1),
        None => None,
    }
}
