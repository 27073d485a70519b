//! The sending half and its calls.

ghost use Rattle.std.specs.Prelude.{◌≡◌, true, slice_get, None, Some, MatchOption, IfErr, IfOk};
ghost use Rattle.std.specs.Prelude.{IfSome, OnOk, OnErr, is_some};
ghost use Rattle.copy_workers.specs.Copies.{IsReady};
ghost use Rattle.half_model.specs.declared.causes.HalfFault.TheVariants.{Memory};
ghost use Rattle.half_model.specs.Jobs.{awaits, first_waiting};
ghost use Rattle.half_model.specs.Turn.{waits_in};
ghost use Rattle.send_half.specs.SendState.{nothing_sent, tables_of, with_fed, next_turn, lent_one};
ghost use Rattle.send_half.specs.SendState.{after_done, with_done, grouped, frame_taken};
ghost use Rattle.send_half.specs.SendState.{receipt_taken, note_taken};
ghost use Rattle.owed_groups.specs.Lending.{Lends, done_of};
ghost use Rattle.send_half.specs.Treating.{IsFed, TreatsAfter, Halts, Stays};

mod treating;

use crate::inlet::Waiting;
use copy_workers::{CopyDone, CopyJob};
use half_model::{FileReceipt, HalfFault, Noted, PeerIn};
use handle_table::Handles;
use message_plans::Shm;
use owed_groups::{Copies, Outbox, OwedGroup};
use pipe_relay::Pipes;
use std::alloc::{AllocError, Global};
use std::marker::Model;
use transfer_frames::Frame;
use wl_objects::Objects;
use wp_outside::Side;

/// The direction of a proxy from its peer to the link: it takes what the peer puts on its wire, and
/// makes the frames of its messages.
///
/// A message that shows new words of shared memory waits for their copies, and no later message is
/// taken before its frames are made. The objects, handles and pipes of a side are shared by its two
/// halves, so the call that needs them is lent them.
#[derive(Drop)]
pub struct SendHalf {
    alloc: Global,
    side: Side,
    inlet: Waiting,
    shm: Shm,
    // How many messages were taken.
    taken: u64,
    // The number of the next copy.
    next_job: u64,
    // What is owed for the last message, while its copies are not back.
    owed: Option<OwedGroup>,
    copies: Copies,
    // What was made, and not taken yet.
    outbox: Outbox,
    // For what the half has failed.
    fault: Option<HalfFault>,
}

impl Model for SendHalf {
    ghost use Rattle.send_half.specs.SendState.{SendState};

    ghost Value = { SendState };

    ghost view = { λ half. record {
      side = half.side;
      sending = record {
        inlet = half.inlet;
        shm = half.shm;
        taken = half.taken;
        next_job = half.next_job;
        owes = half.owed;
      };
      jobs = half.copies;
      frames = half.outbox.frames;
      receipts = half.outbox.receipts;
      noted = half.outbox.noted;
      fault = half.fault;
    } };
}

impl SendHalf {
    /// The half of a side whose peer put nothing on its wire.
    ///
    /// # Errors
    /// Only where memory runs out.
    pub fn new(alloc: Global, side: Side) -> Result<SendHalf, AllocError>
        ensures { IfOk result (λ half. half ≡ nothing_sent side) }
    {
        let shm = Shm::new(alloc)?;
        Ok(SendHalf {
            alloc,
            side,
            inlet: Waiting::new(alloc),
            shm,
            taken: 0,
            next_job: 0,
            owed: None,
            copies: Copies::new(alloc),
            outbox: Outbox::new(alloc),
            fault: None,
        })
    }

    /// Takes an item that the peer put on its wire: bytes, a handle or a note.
    ///
    /// # Errors
    /// Only where memory runs out; the half has then failed for good, and nothing else is changed.
    pub fn feed(&mut self, item: PeerIn) -> Result<(), AllocError>
        requires running { self.old.fault ≡ None }
        requires fed { IsFed item }
        ensures ok { OnOk result (self.new ≡ with_fed item self.old) }
        ensures err { OnErr result (self.new ≡ record self.old { fault = Some Memory }) }
    {
        match self.inlet.feed(item) {
            Ok(()) => Ok(()),
            Err(error) => {
                self.fault = Some(HalfFault::Memory);
                Err(error)
            }
        }
    }

    /// Takes the next whole message of the peer, and makes its frames or what copies they wait for.
    /// False exactly where no message and no size at fault stands at the front, where a copy is
    /// waited for, or where a frame that was made is not taken yet; nothing then changes.
    ///
    /// The message passes tracking, with the oldest handle that was fed before its last byte, if it
    /// carries one. A commit and a keymap take the oldest such note, and fill blocks of their file.
    ///
    /// # Errors
    /// `Peer` with the number of messages that were taken before and the first cause that holds: that
    /// of tracking, `HandleMissing`, `HandleKind`, `NoteMissing`; `Limit`, which comes before
    /// `NoteMissing`; or want of memory. A message that is refused passes no handle and makes
    /// nothing. The half has then failed for good, and answers the same from then on.
    #[tactic(auto, using(crate::proofs::TurnLemmas::treats_ok, crate::proofs::TurnLemmas::treats_err, crate::proofs::TurnLemmas::runs_on, crate::proofs::TurnLemmas::keeps_side))]
    pub fn treat(
        &mut self,
        objects: &mut Objects,
        handles: &mut Handles,
        pipes: &mut Pipes,
    ) -> Result<bool, HalfFault>
        requires side { handles.old.side ≡ self.old.side }
        ensures exact { TreatsAfter self.old.fault result
            (next_turn (tables_of objects.old handles.old pipes.old) self.old)
            (tables_of objects.old handles.old pipes.old)
            (tables_of objects.new handles.new pipes.new) self.old self.new }
        ensures failed { IfErr result (λ fault. self.new.fault ≡ Some fault) }
        ensures running { OnOk result (self.new.fault ≡ None) }
        ensures same { self.new.side ≡ self.old.side }
        ensures kept { handles.new.side ≡ handles.old.side }
    {
        if let Some(fault) = self.fault {
            return Err(fault);
        }
        match self.treat_next(objects, handles, pipes) {
            Ok(taken) => Ok(taken),
            Err(fault) => {
                self.fault = Some(fault);
                Err(fault)
            }
        }
    }

    /// Gives the next copy that is to be made, or None exactly where none waits or the half has
    /// failed. Takes no memory.
    pub fn next_copy(&mut self) -> Option<CopyJob>
        ensures copy { MatchOption self.old.fault
            (Lends result (first_waiting self.old.jobs)) (λ _. result ≡ None) }
        ensures rest { MatchOption self.old.fault
            (self.new ≡ lent_one self.old) (λ _. self.new ≡ self.old) }
        ensures ready { IfSome result IsReady }
    {
        if self.fault.is_some() {
            return None;
        }
        self.copies.lend()
    }

    /// Whether a copy with this number is out, and this is that copy: of the same words, with the
    /// eye's count of writes and the number of its pool. Takes no memory.
    pub fn awaits(&self, done: &CopyDone) -> bool
        ensures { result ≡ awaits self.now.jobs (done_of done.now) }
    {
        self.copies.awaits(done)
    }

    /// Takes a copy back. With the last copy of a message its frames are made.
    ///
    /// # Errors
    /// Only where memory runs out; the half has then failed for good.
    #[tactic(auto, using(crate::proofs::GoesLemmas::after_keeps_fault, crate::proofs::GoesLemmas::after_keeps_side))]
    pub fn copy_done(&mut self, done: CopyDone) -> Result<(), AllocError>
        requires running { self.old.fault ≡ None }
        requires awaited { awaits self.old.jobs (done_of done) ≡ true }
        ensures ok { OnOk result (self.new ≡ after_done (done_of done) self.old) }
        ensures err { OnErr result (Halts Memory (with_done (done_of done) self.old) self.new) }
        ensures running { OnOk result (self.new.fault ≡ None) }
        ensures same { self.new.side ≡ self.old.side }
    {
        self.copies.hand_back(done);
        match self.make_group() {
            Ok(()) => Ok(()),
            Err(error) => {
                self.fault = Some(HalfFault::Memory);
                Err(error)
            }
        }
    }

    // Makes the group of the last message, where it is owed and no copy is waited for.
    fn make_group(&mut self) -> Result<(), AllocError>
        ensures ok { OnOk result (self.new ≡ grouped self.old) }
        ensures err { OnErr result (Stays self.old self.new) }
    {
        if !self.copies.all_back() {
            return Ok(());
        }
        match self.owed.take() {
            Some(owed) => self.outbox.make_group(None, owed, &mut self.copies),
            None => Ok(()),
        }
    }

    /// Whether a whole message, or a size at fault, stands at the front of what waits. Takes no
    /// memory.
    pub fn stands(&self) -> bool
        ensures { result ≡ waits_in self.now.sending }
    {
        self.inlet.stands()
    }

    /// Whether a copy is waited for.
    pub fn waiting(&self) -> bool
        ensures { result ≡ is_some self.now.sending.owes }
    {
        self.owed.is_some()
    }

    /// The next frame that was made; None exactly where all were taken, or where the half has
    /// failed. Takes no memory.
    pub fn next_frame(&mut self) -> Option<Frame>
        ensures frame { MatchOption self.old.fault
            (result ≡ slice_get self.old.frames 0) (λ _. result ≡ None) }
        ensures rest { MatchOption self.old.fault
            (self.new ≡ frame_taken self.old) (λ _. self.new ≡ self.old) }
    {
        if self.fault.is_some() {
            return None;
        }
        self.outbox.next_frame()
    }

    /// The next receipt of a copy whose frames were made; None exactly where all were given, or
    /// where the half has failed. Takes no memory.
    pub fn next_receipt(&mut self) -> Option<FileReceipt>
        ensures receipt { MatchOption self.old.fault
            (result ≡ slice_get self.old.receipts 0) (λ _. result ≡ None) }
        ensures rest { MatchOption self.old.fault
            (self.new ≡ receipt_taken self.old) (λ _. self.new ≡ self.old) }
    {
        if self.fault.is_some() {
            return None;
        }
        self.outbox.next_receipt()
    }

    /// What was noted next; None exactly where all was given. What was noted before a fault is
    /// given behind it too. Takes no memory.
    pub fn noted(&mut self) -> Option<Noted>
        ensures note { result ≡ slice_get self.old.noted 0 }
        ensures rest { self.new ≡ note_taken self.old }
    {
        self.outbox.next_note()
    }
}
