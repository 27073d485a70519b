//! A seat at the table of a pool, and the eight kinds of step that it takes. Each is one load or
//! store of one word.

ghost use Rattle.std.specs.Prelude.{◌≡◌, ◌++◌, ◌+◌, ◌^◌, ◌<◌, ◌≤◌, length, IfOk, All};
ghost use Rattle.pool_words.specs.History.{HasStood};
ghost use Rattle.pool_words.specs.Views.{write, announced, stored, loaded, finished, noted};
ghost use Rattle.pool_words.specs.Views.{divided, absorbed, settling, history_of, settled_of};
ghost use Rattle.pool_words.specs.Views.{low_of, seen_of, sights, IsIdle, IsPending, IsEye};
ghost use Rattle.pool_words.specs.Views.{IsReceipt};
ghost use Rattle.pool_words.specs.Pool.{blank};
ghost use Rattle.pool_words.specs.declared.views.View.TheVariants.{Seeing};

use crate::law::{
    Absorb, Announce, Announced, Divide, Finish, Law, Learn, LoadWord, Note, Place, Pool, Settle,
    Store,
};
use crate::views::View;
use atomic_table::Table;
use std::alloc::{AllocError, Global};
use std::marker::Model;
use std::sync::Arc;

/// A seat, with the pool that all seats share. Contracts see which pool it is, its number of words,
/// and the seat's view.
#[derive(Drop)]
pub struct Desk {
    pool: Arc<Pool, Global>,
    place: Place,
}

impl Model for Desk {
    ghost use Rattle.std.specs.Prelude.{◌≡◌, ◌+◌, []};
    ghost use Rattle.std.specs.Arc.{arc_value};
    ghost use Rattle.pool_words.specs.Views.{DeskState};

    ghost Value = { DeskState };

    ghost view = { λ d. record {
      pool = d.place.table_id;
      words = (arc_value d.pool).shared.key;
      view = d.place.me.0;
    } };

    ghost invariant = { λ d. (d.place.table_id ≡ (arc_value d.pool).shared.table_id)
        × (d.place.table_id.words ≡ (arc_value d.pool).shared.key + 1)
        × (d.place.me.1 ≡ []) };
}

impl Desk {
    /// The pen's seat at a new pool of this many words, which are all 0.
    pub fn open(alloc: Global, words: u32) -> Result<Desk, AllocError>
        ensures { IfOk result (λ d. (d.words ≡ words) × (d.view ≡ blank)) }
    {
        let zeros = vec![in alloc; 0; words as usize + 1]?;
        let (table, place) = Table::of_words(alloc, zeros.as_slice(), &u64::from(words))?;
        let pool = Arc::new(alloc, table)?;
        Ok(Desk { pool, place })
    }

    /// 1: announces a write, by the count of writes with this one. The write itself is for the
    /// proof alone.
    pub fn announce<W: Announced>(&mut self, count: u64, word: u32, value: u64)
        requires idle { IsIdle self.old.view }
        requires count { count ≡ length (history_of self.old.view) + 1 }
        requires picked { W.write ≡ write word value }
        ensures { self.new ≡ record self.old { view = announced (write word value) self.old.view } }
    {
        let _ = (word, value);
        self.pool
            .shared
            .store::<Announce<W>>(&mut self.place, 0, count);
    }

    /// 2: stores the value that was announced.
    pub fn store(&mut self, word: u32, value: u64)
        requires pending { IsPending word value self.old.view }
        requires within { word < self.old.words }
        ensures { self.new ≡ record self.old { view = stored self.old.view } }
    {
        self.pool
            .shared
            .store::<Store>(&mut self.place, word as usize + 1, value);
    }

    /// 3: loads a word.
    pub fn load(&mut self, word: u32) -> u64
        requires eye { IsEye self.old.view }
        requires within { word < self.old.words }
        ensures { self.new ≡ record self.old { view = loaded word result self.old.view } }
    {
        self.pool
            .shared
            .load::<LoadWord>(&mut self.place, word as usize + 1)
    }

    /// 3, for a row of words in ascending order.
    pub fn load_row(&mut self, first: u32, out: &mut [u64])
        requires eye { IsEye self.old.view }
        requires within { first + length out.old ≤ self.old.words }
        requires small { first + length out.old < 2 ^ 32 }
        ensures { self.new ≡ record self.old {
          view = Seeing (low_of self.old.view) (seen_of self.old.view ++ sights first out.new);
        } }
    {
        for i in 0..out.len() {
            out[i] = self.load(first + i as u32);
        }
    }

    /// 4: loads the count of writes, at which its loads end.
    pub fn finish(&mut self) -> u64
        requires { IsEye self.old.view }
        ensures view { self.new ≡ record self.old { view = finished result self.old.view } }
        ensures low { low_of self.old.view ≤ result }
    {
        self.pool.shared.load::<Finish>(&mut self.place, 0)
    }

    /// 5: an eye at the pen's count of writes.
    pub fn note(&mut self) -> Result<Desk, AllocError>
        requires { IsIdle self.old.view }
        ensures ok { IfOk result (λ d. d ≡ record self.old { view = noted self.old.view }) }
        ensures same { self.new ≡ self.old }
    {
        let pool = Arc::try_clone(&self.pool)?;
        let place = pool.shared.split_seat::<Note>(&mut self.place);
        Ok(Desk { pool, place })
    }

    /// 6: another eye with the same low.
    pub fn divide(&mut self) -> Result<Desk, AllocError>
        requires { IsEye self.old.view }
        ensures ok { IfOk result (λ d. d ≡ record self.old { view = divided self.old.view }) }
        ensures same { self.new ≡ self.old }
    {
        let pool = Arc::try_clone(&self.pool)?;
        let place = pool.shared.split_seat::<Divide>(&mut self.place);
        Ok(Desk { pool, place })
    }

    /// 7: takes in another receipt.
    pub fn absorb(&mut self, other: Desk)
        requires pool { other.pool ≡ self.old.pool }
        requires receipts { IsReceipt self.old.view × IsReceipt other.view }
        ensures { self.new ≡ record self.old { view = absorbed self.old.view other.view } }
    {
        let Desk { pool: _, place } = other;
        self.pool.shared.join_seat::<Absorb>(&mut self.place, place);
    }

    /// 8: takes in a receipt.
    pub fn settle(&mut self, receipt: Desk)
        requires pool { receipt.pool ≡ self.old.pool }
        requires pen { IsIdle self.old.view }
        requires receipt { IsReceipt receipt.view }
        ensures { self.new ≡ record self.old { view = settling self.old.view receipt.view } }
    {
        let Desk { pool: _, place } = receipt;
        self.pool.shared.join_seat::<Settle>(&mut self.place, place);
    }

    /// The end of 8: the count is loaded once more, by which the pen is told that all loads which
    /// it settled have stood.
    pub fn learn(&mut self)
        requires { IsIdle self.old.view }
        ensures same { self.new ≡ self.old }
        ensures stood { All (HasStood (history_of self.old.view)) (settled_of self.old.view) }
    {
        self.pool.shared.load::<Learn>(&mut self.place, 0);
    }
}
