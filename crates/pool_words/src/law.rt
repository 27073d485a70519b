//! The rule of a pool, and its kinds of step.
use crate::views::View;
use atomic_table::{Join, Play, Seat, Split, Table, TableRule};
use std::alloc::Global;
use std::marker::Brand;

/// The rule over the words of a pool and what its pen, its eyes and its receipts know. Its key is
/// the number of words.
pub struct Law;

impl TableRule<(), View, u64> for Law {
    ghost use Rattle.pool_words.specs.Pool.{Kept, blank};

    ghost holds = { Kept };

    ghost first = { λ _. blank };
}

/// The words of a pool, behind the count of writes announced.
pub type Pool = Table<(), View, u64, Law, Global>;

/// A seat at a pool.
pub type Place = Seat<(), View>;

/// Which write the pen announces. Each call picks it.
pub trait Announced {
    ghost use Rattle.pool_words.specs.declared.views.Write.{Write};

    ghost write: { Write };
}

impl Announced for Brand {
    ghost write = { record { word = 0; value = 0 } };
}

/// 1: the pen stores the count of writes, with one write more.
pub struct Announce<W: Announced> {
    write: std::marker::PhantomData<W>,
}

impl<W: Announced> Play<(), View> for Announce<W> {
    ghost use Rattle.pool_words.specs.Pool.{Announces};

    ghost then = { Announces W.write };
}

/// 2: the pen stores the word that it announced.
pub struct Store;

impl Play<(), View> for Store {
    ghost use Rattle.pool_words.specs.Pool.{Stores};

    ghost then = { Stores };
}

/// 3: an eye loads a word.
pub struct LoadWord;

impl Play<(), View> for LoadWord {
    ghost use Rattle.pool_words.specs.Pool.{Loads};

    ghost then = { Loads };
}

/// 4: an eye loads the count of writes, and loads no more words.
pub struct Finish;

impl Play<(), View> for Finish {
    ghost use Rattle.pool_words.specs.Pool.{Finishes};

    ghost then = { Finishes };
}

/// 5: the pen makes an eye.
pub struct Note;

impl Split<View> for Note {
    ghost use Rattle.pool_words.specs.Views.{noted};

    ghost left = { λ v. v };

    ghost right = { noted };
}

/// 6: an eye makes another one.
pub struct Divide;

impl Split<View> for Divide {
    ghost use Rattle.pool_words.specs.Views.{divided};

    ghost left = { λ v. v };

    ghost right = { divided };
}

/// 7: a receipt takes in another one.
pub struct Absorb;

impl Join<View> for Absorb {
    ghost use Rattle.pool_words.specs.Views.{absorbed};
    ghost use Rattle.pool_words.specs.declared.views.View.TheVariants.{Spent};

    ghost both = { absorbed };

    ghost spent = { Spent };
}

/// 8: the pen takes in a receipt.
pub struct Settle;

impl Join<View> for Settle {
    ghost use Rattle.pool_words.specs.Views.{settling};
    ghost use Rattle.pool_words.specs.declared.views.View.TheVariants.{Spent};

    ghost both = { settling };

    ghost spent = { Spent };
}

/// The end of 8: the pen loads the count of writes, which changes nothing, and is told that what it
/// settled has stood.
pub struct Learn;

impl Play<(), View> for Learn {
    ghost use Rattle.pool_words.specs.Pool.{Learns};

    ghost then = { Learns };
}
