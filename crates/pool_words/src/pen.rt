//! The one writer of a pool.

ghost use Rattle.std.specs.Prelude.{◌≡◌, ◌↔◌, ◌^◌, ◌<◌, ◌≤◌, [], ◌∷◌, ◌++◌, length, All, IsOk};
ghost use Rattle.std.specs.Prelude.{IsErr, IfOk, OnOk, IfErr, OnErr};
ghost use Rattle.pool_words.specs.History.{HasStood};
ghost use Rattle.pool_words.specs.Views.{write, wrote, note_of, took};

use crate::desk::Desk;
use crate::eye::Eye;
use crate::receipt::Receipt;
use std::alloc::{AllocError, Global};
use std::marker::{Brand, Model};

// At so many writes no more are taken.
const MOST_WRITES: u64 = 1 << 62;

/// The one writer of a pool. Contracts see which pool it is of, its number, how many words it has,
/// its history of writes, and the loads that it settled.
#[derive(Drop)]
pub struct Pen {
    desk: Desk,
    number: u64,
    words: u32,
    count: u64,
}

impl Model for Pen {
    ghost use Rattle.std.specs.Prelude.{◌≡◌, ◌≤◌, ◌^◌, length};
    ghost use Rattle.pool_words.specs.Views.{PenState, IsIdle, history_of, settled_of};

    ghost Value = { PenState };

    ghost view = { λ p. record {
      pool = p.desk.pool;
      number = p.number;
      words = p.words;
      history = history_of p.desk.view;
      settled = settled_of p.desk.view;
    } };

    ghost invariant = { λ p. (p.desk.words ≡ p.words) × IsIdle p.desk.view
        × (p.count ≡ length (history_of p.desk.view)) × (p.count ≤ 2 ^ 62) × (1 ≤ p.words) };
}

/// The pool has had 2^62 writes, and takes no more.
#[derive(Debug, Drop)]
pub struct WritesSpent;

/// The receipt is of a pool with another number than the pen's.
#[derive(Debug, Drop)]
pub struct Stranger {
    /// The number of the pen's pool.
    pub pen: u64,
    /// The number of the receipt's pool.
    pub receipt: u64,
}

/// A pool of this many words, which are all 0, by its one pen. The number is the caller's own name
/// for it.
pub fn new_pool(alloc: Global, number: u64, words: u32) -> Result<Pen, AllocError>
    requires { (1 ≤ words) × (words ≤ 8388608) }
    ensures named { IfOk result (λ p. (p.number ≡ number) × (p.words ≡ words)) }
    ensures blank { IfOk result (λ p. (p.history ≡ []) × (p.settled ≡ [])) }
{
    let desk = Desk::open(alloc, words)?;
    Ok(Pen {
        desk,
        number,
        words,
        count: 0,
    })
}

impl Pen {
    /// The number of words, at least one.
    pub fn words(&self) -> u32
        ensures words { result ≡ self.now.words }
        ensures some { 1 ≤ result }
    {
        self.words
    }

    /// Gives word `i` the value `v`, at once for all threads. It is refused exactly where 2^62
    /// writes were made.
    pub fn write(&mut self, i: u32, v: u64) -> Result<(), WritesSpent>
        requires { i < self.old.words }
        ensures ok { OnOk result (self.new ≡ wrote self.old i v) }
        ensures spent { IsErr result ↔ (length self.old.history ≡ 2 ^ 62) }
        ensures unchanged { OnErr result (self.new ≡ self.old) }
    {
        if self.count >= MOST_WRITES {
            return Err(WritesSpent);
        }
        // The announcement comes first: the count that an eye reads at its finish then covers each
        // value that it saw.
        self.desk.announce::<Brand>(self.count + 1, i, v);
        self.desk.store(i, v);
        self.count += 1;
        Ok(())
    }

    /// An eye that has loaded nothing, at the count of writes so far.
    pub fn note(&mut self) -> Result<Eye, AllocError>
        ensures ok { IfOk result (λ e. e ≡ note_of self.old) }
        ensures same { self.new ≡ self.old }
    {
        let desk = self.desk.note()?;
        Ok(Eye::over(desk, self.number, self.words, self.count))
    }

    /// Takes in the loads of a receipt. Each is then known to have stood, between its low and its
    /// high.
    pub fn settle(&mut self, r: Receipt) -> Result<(), Stranger>
        requires { r.number ≡ self.old.number → r.pool ≡ self.old.pool }
        ensures which { IsOk result ↔ (r.number ≡ self.old.number) }
        ensures ok { OnOk result (self.new ≡ took self.old r) }
        ensures stood { OnOk result (All (HasStood self.new.history) self.new.settled) }
        ensures stranger { IfErr result (λ e. (e.pen ≡ self.old.number) × (e.receipt ≡ r.number)) }
        ensures unchanged { OnErr result (self.new ≡ self.old) }
    {
        if r.number() != self.number {
            return Err(Stranger {
                pen: self.number,
                receipt: r.number(),
            });
        }
        self.desk.settle(r.into_desk());
        self.desk.learn();
        Ok(())
    }
}
