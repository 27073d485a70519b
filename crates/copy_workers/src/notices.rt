//! The notice that a crew is closed: its chief posts it, and its workers read it, with no lock.

ghost use Rattle.std.specs.Prelude.{◌≡◌, true, false, Some, None, IfOk, IsTrue, IsSome};
ghost use Rattle.std.specs.Bool.{IsFalse};
ghost use Rattle.copy_workers.specs.Notices.{IsKnown};

use crate::notice_law::{Board, Compare, Hear, Named, Place, Post, Read, Reader};
use crate::ports::Port;
use crate::ready::ReadyJob;
use std::alloc::{AllocError, Global};
use std::marker::{Brand, Model};
use std::sync::Arc;

/// A thread's seat at a notice. Contracts see which notice it is, whether the seat is the one that
/// posts, and the jobs that the notice names, where the seat knows them; that list takes no memory.
#[derive(Drop)]
pub struct Notice {
    board: Arc<Board, Global>,
    place: Place,
}

impl Model for Notice {
    ghost use Rattle.std.specs.Prelude.{◌≡◌, []};
    ghost use Rattle.std.specs.Arc.{arc_value};
    ghost use Rattle.copy_workers.specs.Notices.{NoticeState};

    ghost Value = { NoticeState };

    ghost view = { λ n. record {
      table = n.place.table_id;
      posts = n.place.me.0.posts;
      jobs = n.place.me.0.jobs;
    } };

    ghost invariant = { λ n. (n.place.table_id ≡ (arc_value n.board).shared.table_id)
        × (n.place.table_id.words ≡ 1)
        × (n.place.me.1 ≡ []) };
}

impl Notice {
    /// A new notice, which isn't posted, for the one who posts it.
    pub fn open(alloc: Global) -> Result<Notice, AllocError>
        ensures { IfOk result (λ n. (n.posts ≡ true) × (n.jobs ≡ None)) }
    {
        let (table, place) = Board::of_words(alloc, [0].as_slice(), &())?;
        let board = Arc::new(alloc, table)?;
        Ok(Notice { board, place })
    }

    /// A reader of the same notice.
    pub fn reader(&mut self) -> Result<Notice, AllocError>
        requires { self.old.posts ≡ true }
        ensures new { IfOk result (λ n.
            (n.table ≡ self.old.table) × (n.posts ≡ false) × (n.jobs ≡ None)) }
        ensures same { self.new ≡ self.old }
    {
        let board = Arc::try_clone(&self.board)?;
        let place = board.shared.split_seat::<Reader>(&mut self.place);
        Ok(Notice { board, place })
    }

    /// Posts the notice. It names the jobs that were put in at this port, for the proof alone.
    pub fn post(&mut self, jobs: &Port<ReadyJob>)
        requires { (self.old.posts ≡ true) × (self.old.jobs ≡ None) }
        ensures { self.new ≡ record self.old { jobs = Some jobs.now.put } }
    {
        self.post_named::<Brand>(jobs);
    }

    fn post_named<J: Named>(&mut self, _jobs: &Port<ReadyJob>)
        requires poster { (self.old.posts ≡ true) × (self.old.jobs ≡ None) }
        requires picked { J.jobs ≡ _jobs.now.put }
        ensures { self.new ≡ record self.old { jobs = Some J.jobs } }
    {
        self.board.shared.store::<Post<J>>(&mut self.place, 0, 1);
    }

    /// Whether the notice is posted. Then this reader knows which jobs it names.
    pub fn is_posted(&mut self) -> bool
        requires { self.old.posts ≡ false }
        ensures posted { IsTrue result → IsSome self.new.jobs }
        ensures not_yet { IsFalse result → self.new ≡ self.old }
        ensures same { (self.new.table ≡ self.old.table) × (self.new.posts ≡ false) }
    {
        self.board.shared.load::<Read>(&mut self.place, 0) != 0
    }

    /// Takes in a reader of the same notice, and so is told that what it knows is what was posted.
    pub fn compare(&mut self, reader: Notice)
        requires { (self.old.posts ≡ true) × (reader.table ≡ self.old.table) }
        ensures known { IsKnown self.old.jobs reader.jobs }
        ensures same { self.new ≡ self.old }
    {
        let Notice { board: _, place } = reader;
        self.board.shared.join_seat::<Hear>(&mut self.place, place);
        self.board.shared.load::<Compare>(&mut self.place, 0);
    }
}
