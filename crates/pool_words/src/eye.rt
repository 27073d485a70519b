//! A note of a pen, which loads words on any thread.

ghost use Rattle.std.specs.Prelude.{◌≡◌, [], ◌+◌, ◌≤◌, ◌++◌, length, IfOk};
ghost use Rattle.pool_words.specs.Views.{EyeState, IsEye, low_of, seen_of, sights, receipt_of};

use crate::desk::Desk;
use crate::receipt::Receipt;
use std::alloc::AllocError;
use std::marker::Model;

/// A note of a pen. Contracts see which pool it is of, its number, how many words it has, the count
/// of writes at the note, and its loads in order.
#[derive(Drop)]
pub struct Eye {
    desk: Desk,
    number: u64,
    words: u32,
    low: u64,
}

impl Model for Eye {
    ghost use Rattle.std.specs.Prelude.{◌≡◌, ◌≤◌};
    ghost use Rattle.pool_words.specs.Views.{EyeState, IsEye, low_of, seen_of};

    ghost Value = { EyeState };

    ghost view = { λ e. record {
      pool = e.desk.pool;
      number = e.number;
      words = e.words;
      low = e.low;
      seen = seen_of e.desk.view;
    } };

    ghost invariant = { λ e. (e.desk.words ≡ e.words) × IsEye e.desk.view
        × (e.low ≡ low_of e.desk.view) × (1 ≤ e.words) };
}

impl Eye {
    // The eye that has this seat.
    pub(crate) fn over(desk: Desk, number: u64, words: u32, low: u64) -> Eye
        requires sized { (desk.words ≡ words) × (1 ≤ words) }
        requires eye { IsEye desk.view × (low ≡ low_of desk.view) }
        ensures { result ≡ record {
          pool = desk.pool;
          number = number;
          words = words;
          low = low;
          seen = seen_of desk.view;
        } }
    {
        Eye {
            desk,
            number,
            words,
            low,
        }
    }

    /// The number of the pool.
    pub fn number(&self) -> u64
        ensures { result ≡ self.now.number }
    {
        self.number
    }

    /// The number of words, at least one.
    pub fn words(&self) -> u32
        ensures words { result ≡ self.now.words }
        ensures some { 1 ≤ result }
    {
        self.words
    }

    /// The count of writes when the note was made.
    pub fn low(&self) -> u64
        ensures { result ≡ self.now.low }
    {
        self.low
    }

    /// Another eye that has loaded nothing, with the same low.
    pub fn split(&mut self) -> Result<Eye, AllocError>
        ensures ok { IfOk result (λ e. e ≡ record self.old { seen = [] }) }
        ensures same { self.new ≡ self.old }
    {
        let desk = self.desk.divide()?;
        Ok(Eye::over(desk, self.number, self.words, self.low))
    }

    /// Loads the words from `first` on, in ascending order, each by one atomic load.
    pub fn load(&mut self, first: u32, out: &mut [u64])
        requires { first + length out.old ≤ self.old.words }
        ensures { self.new ≡ record self.old { seen = self.old.seen ++ sights first out.new } }
    {
        self.desk.load_row(first, out);
    }

    /// Ends the loads, and gives the receipt for them. Its high is the count of writes then.
    pub fn finish(self) -> Receipt
        ensures loads { result ≡ receipt_of self result.high }
        ensures high { self.low ≤ result.high }
    {
        let Eye {
            mut desk,
            number,
            words: _,
            low: _,
        } = self;
        let high = desk.finish();
        Receipt::over(desk, number, high)
    }
}
