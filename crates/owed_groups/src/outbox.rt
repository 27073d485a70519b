//! What a side made, and nobody took yet.

ghost use Rattle.std.specs.Prelude.{◌≡◌, [], Some, drop, slice_get, OnOk, OnErr};
ghost use Rattle.half_model.specs.Turn.{made_of};
ghost use Rattle.owed_groups.specs.Outbox.{no_outbox, with_taken, with_group_made, has_frames};

use crate::copies::Copies;
use crate::owed::OwedGroup;
use half_model::{CopyList, FileReceipt, Noted};
use std::alloc::{AllocError, Global};
use std::collections::VecDeque;
use std::marker::Model;
use transfer_frames::Frame;
use wl_wire::Message;

/// Frames, receipts of copies, and what is noted, each in order.
#[derive(Drop)]
pub struct Outbox {
    alloc: Global,
    frames: VecDeque<Frame>,
    receipts: VecDeque<FileReceipt>,
    noted: VecDeque<Noted>,
}

impl Model for Outbox {
    ghost use Rattle.owed_groups.specs.Outbox.{OutboxState};

    ghost Value = { OutboxState };

    ghost view = { λ it. record {
      frames = it.frames.items;
      receipts = it.receipts.items;
      noted = it.noted.items;
    } };
}

impl Outbox {
    /// Nothing was made. Takes no memory.
    pub fn new(alloc: Global) -> Outbox
        ensures { result ≡ no_outbox }
    {
        Outbox {
            alloc,
            frames: VecDeque::new(alloc),
            receipts: VecDeque::new(alloc),
            noted: VecDeque::new(alloc),
        }
    }

    /// Notes that a message was taken.
    ///
    /// # Errors
    /// Only where memory runs out; nothing is then changed.
    pub fn note_taken(&mut self, message: Message) -> Result<(), AllocError>
        ensures ok { OnOk result (self.new ≡ with_taken (Some message) self.old) }
        ensures err { OnErr result (self.new ≡ self.old) }
    {
        self.noted.push_back(Noted::Taken(message))?;
        Ok(())
    }

    /// Makes the group of a message, whose copies are back, and notes that the message was taken,
    /// where this is not noted yet.
    ///
    /// # Errors
    /// Only where memory runs out; nothing is then changed, but the group is lost.
    pub fn make_group(
        &mut self,
        taken: Option<Message>,
        owed: OwedGroup,
        copies: &mut Copies,
    ) -> Result<(), AllocError>
        ensures ok { OnOk result
            (self.new ≡ with_group_made (made_of owed copies.old) (with_taken taken self.old)) }
        ensures none { OnOk result (copies.new ≡ []) }
        ensures err { OnErr result (self.new ≡ self.old) }
        ensures kept { OnErr result (copies.new ≡ copies.old) }
    {
        let row = owed.into_frames(self.alloc, copies)?;
        let (mut frames, kept) = row.into_parts();
        let count = copies.len();
        let mut records = Vec::with_capacity(self.alloc, count)?;
        self.receipts.reserve(count)?;
        self.noted.reserve(2)?;
        self.frames.append(&mut frames)?;
        copies.move_into(&mut records, &mut self.receipts);
        if let Some(message) = taken {
            self.noted.push_back_reserved(Noted::Taken(message));
        }
        self.noted.push_back_reserved(Noted::Group {
            frames: kept,
            copies: CopyList::from_vec(records),
        });
        Ok(())
    }

    /// Whether a frame was made that nobody took yet. Takes no memory.
    pub fn has_frames(&self) -> bool
        ensures { result ≡ has_frames self.now }
    {
        !self.frames.is_empty()
    }

    /// The next frame; None exactly where all were taken. Takes no memory.
    pub fn next_frame(&mut self) -> Option<Frame>
        ensures frame { result ≡ slice_get self.old.frames 0 }
        ensures rest { self.new ≡ record self.old { frames = drop 1 self.old.frames } }
    {
        self.frames.pop_front()
    }

    /// The next receipt; None exactly where all were taken. Takes no memory.
    pub fn next_receipt(&mut self) -> Option<FileReceipt>
        ensures receipt { result ≡ slice_get self.old.receipts 0 }
        ensures rest { self.new ≡ record self.old { receipts = drop 1 self.old.receipts } }
    {
        self.receipts.pop_front()
    }

    /// What was noted next; None exactly where all was taken. Takes no memory.
    pub fn next_note(&mut self) -> Option<Noted>
        ensures note { result ≡ slice_get self.old.noted 0 }
        ensures rest { self.new ≡ record self.old { noted = drop 1 self.old.noted } }
    {
        self.noted.pop_front()
    }
}
