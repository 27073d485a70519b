//! One copy of a message.

ghost use Rattle.std.specs.Prelude.{◌≡◌, ◌<◌, ◌++◌, option_to_list, IfSome};
ghost use Rattle.std.specs.VecDeque.{deque_len, deque_capacity};
ghost use Rattle.std.specs.Vec.{vec_len, vec_capacity};
ghost use Rattle.copy_workers.specs.Copies.{IsReady};
ghost use Rattle.half_model.specs.Jobs.{is_done, is_back, words_of, copied, receipt_in};
ghost use Rattle.owed_groups.specs.Slots.{if_waits, given_out, back_with};
ghost use Rattle.owed_groups.specs.Lending.{Lends, done_of};

use crate::stage::Stage;
use copy_workers::{CopyDone, CopyJob};
use half_model::{CopyRecord, FileReceipt};
use std::collections::VecDeque;
use std::marker::Model;
use std::mem;

/// A copy of `count` words of one segment of a file, from the word `first` on, and how far it has
/// come.
#[derive(Drop)]
pub(crate) struct Slot {
    pub(crate) id: u64,
    pub(crate) file: i32,
    pub(crate) segment: u32,
    pub(crate) first: u32,
    pub(crate) count: u32,
    // The eye's count of writes, and the number of its pool.
    pub(crate) low: u64,
    pub(crate) pool: u64,
    pub(crate) stage: Stage,
}

impl Model for Slot {
    ghost use Rattle.half_model.specs.Jobs.{Job};
    ghost use Rattle.owed_groups.specs.Slots.{state_of, IsStage};

    ghost Value = { Job };

    ghost view = { λ slot. record {
      id = slot.id;
      part = record {
        file = slot.file;
        segment = slot.segment;
        first = slot.first;
        count = slot.count;
      };
      low = slot.low;
      pool = slot.pool;
      state = state_of slot.stage;
    } };

    ghost invariant = { λ slot. IsStage slot.first slot.count slot.stage };
}

impl Slot {
    /// Gives out the copy, where it waits.
    pub(crate) fn lend(&mut self) -> Option<CopyJob>
        ensures copy { Lends result (if_waits self.old) }
        ensures rest { self.new ≡ given_out self.old }
        ensures ready { IfSome result IsReady }
    {
        match mem::replace(&mut self.stage, Stage::IsOut) {
            Stage::Waits { eye, words } => Some(CopyJob {
                id: self.id,
                eye,
                first: self.first,
                words,
            }),
            Stage::IsOut => None,
            Stage::IsBack { words, receipt } => {
                self.stage = Stage::IsBack { words, receipt };
                None
            }
        }
    }

    /// Whether what is handed back is this copy, which is out.
    pub(crate) fn is_done(&self, done: &CopyDone) -> bool
        ensures { result ≡ is_done (done_of done.now) self.now }
    {
        matches!(self.stage, Stage::IsOut)
            && self.id == done.id
            && self.first == done.first
            && self.count as usize == done.words.len()
            && self.low == done.low
            && self.pool == done.receipt.number()
    }

    /// The copy is back.
    pub(crate) fn hand_back(&mut self, done: CopyDone)
        ensures { self.new ≡ back_with (done_of done) self.old }
    {
        self.stage = Stage::IsBack {
            words: done.words,
            receipt: done.receipt,
        };
    }

    /// Whether the copy is back.
    pub(crate) fn is_back(&self) -> bool
        ensures { result ≡ is_back self.now.state }
    {
        matches!(
            self.stage,
            Stage::IsBack {
                words: _,
                receipt: _
            }
        )
    }

    /// The words that came back; none where the copy is not back.
    pub(crate) fn words(&self) -> &[u64]
        ensures { result.now ≡ words_of self.now.state }
    {
        match &self.stage {
            Stage::IsBack { words, receipt: _ } => words.as_slice(),
            _ => &[],
        }
    }

    /// Puts the copy and its receipt behind others, where it is back.
    pub(crate) fn move_into(
        self,
        records: &mut Vec<CopyRecord>,
        receipts: &mut VecDeque<FileReceipt>,
    )
        requires records { vec_len records.old < vec_capacity records.old }
        requires receipts { deque_len receipts.old < deque_capacity receipts.old }
        ensures copy { records.new.items
            ≡ records.old.items ++ option_to_list (copied self.part self.low self.state) }
        ensures receipt { receipts.new.items
            ≡ receipts.old.items ++ option_to_list (receipt_in self.part self.state) }
        ensures records_room { vec_capacity records.new ≡ vec_capacity records.old }
        ensures receipts_room { deque_capacity receipts.new ≡ deque_capacity receipts.old }
    {
        let Slot {
            id: _,
            file,
            segment,
            first,
            count: _,
            low,
            pool: _,
            stage,
        } = self;
        if let Stage::IsBack { words, receipt } = stage {
            let high = receipt.high();
            records.push_reserved(CopyRecord {
                file,
                segment,
                first,
                words,
                low,
                high,
            });
            receipts.push_back_reserved(FileReceipt {
                number: file,
                segment,
                receipt,
            });
        }
    }
}
