//! The copies of the last message.

ghost use Rattle.std.specs.Prelude.{◌≡◌, ◌+◌, ◌≤◌, ◌++◌, [], true, length, IfSome};
ghost use Rattle.std.specs.VecDeque.{deque_len, deque_capacity};
ghost use Rattle.std.specs.Vec.{vec_len, vec_capacity};
ghost use Rattle.copy_workers.specs.Copies.{IsReady};
ghost use Rattle.half_model.specs.Jobs.{awaits, first_waiting, lent, handed, all_back};
ghost use Rattle.half_model.specs.Jobs.{copies_of, receipts_of};
ghost use Rattle.owed_groups.specs.Slots.{AreKept};
ghost use Rattle.owed_groups.specs.Lending.{Lends, done_of};

use crate::slot::Slot;
use copy_workers::{CopyDone, CopyJob};
use half_model::{CopyRecord, FileReceipt};
use std::alloc::Global;
use std::collections::VecDeque;
use std::marker::Model;
use std::mem;

mod words;

/// The copies that a message waits for, in the order of the words that they copy. Their numbers
/// follow one another. They are given out in that order, and come back in any.
#[derive(Drop)]
pub struct Copies {
    slots: Vec<Slot>,
    // The number of the first one.
    first: u64,
    // How many were given out, and how many are not back.
    given: usize,
    left: usize,
}

impl Model for Copies {
    ghost use Rattle.std.specs.Prelude.{List};
    ghost use Rattle.half_model.specs.Jobs.{Job};
    ghost use Rattle.owed_groups.specs.Slots.{AreKept};

    ghost Value = { List Job };

    ghost view = { λ copies. copies.slots.items };

    ghost invariant = { λ copies.
        AreKept copies.first copies.given copies.left copies.slots.items };
}

impl Copies {
    /// No copy. Takes no memory.
    pub fn new(alloc: Global) -> Copies
        ensures { result ≡ [] }
    {
        Copies {
            slots: Vec::new(alloc),
            first: 0,
            given: 0,
            left: 0,
        }
    }

    /// These copies, which all wait, and are numbered from `first` on.
    pub(crate) fn from_slots(slots: Vec<Slot>, first: u64) -> Copies
        requires { AreKept first 0 (length slots.items) slots.items }
        ensures { result ≡ slots.items }
    {
        let left = slots.len();
        Copies {
            slots,
            first,
            given: 0,
            left,
        }
    }

    /// How many there are.
    pub fn len(&self) -> usize
        ensures { result ≡ length self.now }
    {
        self.slots.len()
    }

    /// Gives out the first copy that waits.
    pub fn lend(&mut self) -> Option<CopyJob>
        ensures copy { Lends result (first_waiting self.old) }
        ensures rest { self.new ≡ lent self.old }
        ensures ready { IfSome result IsReady }
    {
        match self.slots.get_mut(self.given) {
            Some(slot) => {
                let copy = slot.lend();
                self.given += 1;
                copy
            }
            None => None,
        }
    }

    /// Whether what is handed back is a copy that is out.
    pub fn awaits(&self, done: &CopyDone) -> bool
        ensures { result ≡ awaits self.now (done_of done.now) }
    {
        if done.id < self.first {
            return false;
        }
        let place = (done.id - self.first) as usize;
        place < self.slots.len() && self.slots[place].is_done(done)
    }

    /// A copy that is out is back.
    pub fn hand_back(&mut self, done: CopyDone)
        requires { awaits self.old (done_of done) ≡ true }
        ensures { self.new ≡ handed (done_of done) self.old }
    {
        let place = (done.id - self.first) as usize;
        self.slots[place].hand_back(done);
        self.left -= 1;
    }

    /// Whether all are back.
    pub fn all_back(&self) -> bool
        ensures { result ≡ all_back self.now }
    {
        self.left == 0
    }

    /// Moves the copies and their receipts behind others, and leaves none.
    pub(crate) fn move_into(
        &mut self,
        records: &mut Vec<CopyRecord>,
        receipts: &mut VecDeque<FileReceipt>,
    )
        requires records { vec_len records.old + length self.old ≤ vec_capacity records.old }
        requires receipts { deque_len receipts.old + length self.old
            ≤ deque_capacity receipts.old }
        ensures copies { records.new.items ≡ records.old.items ++ copies_of self.old }
        ensures receipts { receipts.new.items ≡ receipts.old.items ++ receipts_of self.old }
        ensures none { self.new ≡ [] }
    {
        let none = Vec::new(*self.slots.allocator());
        let slots = mem::replace(&mut self.slots, none);
        self.given = 0;
        self.left = 0;
        move_slots(slots, records, receipts);
    }
}

// Moves what came back of copies behind others.
fn move_slots(slots: Vec<Slot>, records: &mut Vec<CopyRecord>, receipts: &mut VecDeque<FileReceipt>)
    requires records { vec_len records.old + length slots.items ≤ vec_capacity records.old }
    requires receipts { deque_len receipts.old + length slots.items
        ≤ deque_capacity receipts.old }
    ensures copies { records.new.items ≡ records.old.items ++ copies_of slots.items }
    ensures receipts { receipts.new.items ≡ receipts.old.items ++ receipts_of slots.items }
{
    let mut queue = VecDeque::from(slots);
    while let Some(slot) = queue.pop_front() {
        slot.move_into(records, receipts);
    }
}
