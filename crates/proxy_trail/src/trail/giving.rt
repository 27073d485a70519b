//! The calls that give something to the peer and to the workers.

ghost use Rattle.std.specs.Prelude.{◌≡◌, None, MatchOption, IfSome};
ghost use Rattle.copy_workers.specs.Copies.{IsReady};
ghost use Rattle.half_model.specs.Jobs.{first_waiting};
ghost use Rattle.owed_groups.specs.Lending as treating;
ghost use Rattle.side_model.specs.Events.{Lent, Gave};
ghost use Rattle.side_model.specs.Shows.{next_item};
ghost use Rattle.side_model.specs.Trails.{trail_step};

use super::Trail;
use crate::recording::record_given;
use copy_workers::CopyJob;
use half_model::PeerOut;

impl Trail {
    /// Gives the next copy that is to be made, or None exactly where none waits or it has failed. Takes
    /// no memory.
    pub fn next_copy(&mut self) -> Option<CopyJob>
        ensures copy { MatchOption self.old.fault
            (treating.Lends result (first_waiting self.old.now.kept.jobs)) (λ _. result ≡ None) }
        ensures rest { MatchOption self.old.fault
            (self.new ≡ trail_step Lent self.old) (λ _. self.new ≡ self.old) }
        ensures ready { IfSome result IsReady }
    {
        if self.fault.is_some() {
            return None;
        }
        self.book.close_room();
        self.proxy.next_copy()
    }

    /// The next item that its peer is to be given; None exactly where there is none or it has failed. A
    /// message that is given is counted. Takes no memory.
    pub fn peer_out(&mut self) -> Option<PeerOut>
        ensures item { MatchOption self.old.fault
            (result ≡ next_item self.old.now.live) (λ _. result ≡ None) }
        ensures rest { MatchOption self.old.fault
            (self.new ≡ trail_step Gave self.old) (λ _. self.new ≡ self.old) }
    {
        if self.fault.is_some() {
            return None;
        }
        self.book.close_room();
        let item = self.proxy.peer_out();
        record_given(&mut self.book, &item);
        item
    }
}
