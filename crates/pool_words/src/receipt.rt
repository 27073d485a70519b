//! What stands for the loads of finished eyes.

ghost use Rattle.std.specs.Prelude.{◌≡◌};
ghost use Rattle.pool_words.specs.Views.{IsReceipt, high_of, loads_of, joined};

use crate::desk::Desk;
use std::marker::Model;

/// What stands for the loads of finished eyes. Contracts see which pool it is of, its number, its
/// high, and each load with its own low and high.
#[derive(Drop)]
pub struct Receipt {
    desk: Desk,
    number: u64,
    high: u64,
}

impl Model for Receipt {
    ghost use Rattle.std.specs.Prelude.{◌≡◌};
    ghost use Rattle.pool_words.specs.Views.{ReceiptState, IsReceipt, high_of, loads_of};

    ghost Value = { ReceiptState };

    ghost view = { λ r. record {
      pool = r.desk.pool;
      number = r.number;
      high = r.high;
      loads = loads_of r.desk.view;
    } };

    ghost invariant = { λ r. IsReceipt r.desk.view × (r.high ≡ high_of r.desk.view) };
}

impl Receipt {
    // The receipt that has this seat.
    pub(crate) fn over(desk: Desk, number: u64, high: u64) -> Receipt
        requires { IsReceipt desk.view × (high ≡ high_of desk.view) }
        ensures { result ≡ record {
          pool = desk.pool;
          number = number;
          high = high;
          loads = loads_of desk.view;
        } }
    {
        Receipt { desk, number, high }
    }

    // Its seat.
    pub(crate) fn into_desk(self) -> Desk
        ensures receipt { IsReceipt result.view }
        ensures same { (result.pool ≡ self.pool) × (high_of result.view ≡ self.high) }
        ensures loads { loads_of result.view ≡ self.loads }
    {
        let Receipt {
            desk,
            number: _,
            high: _,
        } = self;
        desk
    }

    /// The number of the pool.
    pub fn number(&self) -> u64
        ensures { result ≡ self.now.number }
    {
        self.number
    }

    /// The count of writes when the last of its eyes finished.
    pub fn high(&self) -> u64
        ensures { result ≡ self.now.high }
    {
        self.high
    }

    /// Joins two receipts of one pool. Each load keeps the low and the high of its own eye.
    pub fn absorb(self, other: Receipt) -> Receipt
        requires { self.pool ≡ other.pool }
        ensures { result ≡ joined self other }
    {
        let Receipt {
            mut desk,
            number,
            high,
        } = self;
        let high = high.max(other.high);
        desk.absorb(other.into_desk());
        Receipt { desk, number, high }
    }
}
