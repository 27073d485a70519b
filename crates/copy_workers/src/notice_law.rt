//! The rule of a notice, and its kinds of step.

use crate::views::Known;
use atomic_table::{Join, Play, Seat, Split, Table, TableRule};
use std::alloc::Global;
use std::marker::{Brand, PhantomData};

/// One word is 1 where the notice is posted, and what anyone knows of it is what it says.
pub struct Notified;

impl TableRule<(), Known, ()> for Notified {
    ghost use Rattle.std.specs.Prelude.{true, None};
    ghost use Rattle.copy_workers.specs.Notices.{Posted, known};

    ghost holds = { λ _. Posted };

    ghost first = { λ _. known true None None };
}

/// The word of a notice.
pub type Board = Table<(), Known, (), Notified, Global>;

/// A seat at a notice.
pub type Place = Seat<(), Known>;

/// Which jobs the notice names. Each call picks them.
pub trait Named {
    ghost use Rattle.std.specs.Prelude.{List};
    ghost use Rattle.copy_workers.specs.declared.copies.CopyJob.{CopyJob};

    ghost jobs: { List CopyJob };
}

impl Named for Brand {
    ghost use Rattle.std.specs.Prelude.{[]};

    ghost jobs = { [] };
}

/// The one who posts the notice stores 1.
pub struct Post<J: Named> {
    jobs: PhantomData<J>,
}

impl<J: Named> Play<(), Known> for Post<J> {
    ghost use Rattle.copy_workers.specs.Notices.{Posts};

    ghost then = { Posts J.jobs };
}

/// A reader loads the word.
pub struct Read;

impl Play<(), Known> for Read {
    ghost use Rattle.copy_workers.specs.Notices.{Reads};

    ghost then = { Reads };
}

/// The one who posts makes a reader.
pub struct Reader;

impl Split<Known> for Reader {
    ghost use Rattle.std.specs.Prelude.{false, None};
    ghost use Rattle.copy_workers.specs.Notices.{known};

    ghost left = { λ v. v };

    ghost right = { λ _. known false None None };
}

/// The one who posts takes in a reader.
pub struct Hear;

impl Join<Known> for Hear {
    ghost use Rattle.std.specs.Prelude.{false, None};
    ghost use Rattle.copy_workers.specs.Notices.{known};

    ghost both = { λ v w. known v.posts v.jobs w.jobs };

    ghost spent = { known false None None };
}

/// The one who posted loads the word, which changes nothing, and is told that what it heard is what
/// it posted.
pub struct Compare;

impl Play<(), Known> for Compare {
    ghost use Rattle.copy_workers.specs.Notices.{Compares};

    ghost then = { Compares };
}
