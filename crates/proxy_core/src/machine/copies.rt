//! The copies of the message that is owed.

ghost use Rattle.std.specs.Prelude.{◌≡◌, ◌<◌, ◌^◌, true, None, MatchOption, IfSome, OnOk};
ghost use Rattle.copy_workers.specs.Copies.{IsReady};
ghost use Rattle.half_model.specs.Jobs.{awaits, first_waiting};
ghost use Rattle.pair_model.specs.RingState.{ring_made};
ghost use Rattle.owed_groups.specs.Lending.{Lends, done_of};
ghost use Rattle.side_model.specs.Events.{Handed, Lent};
ghost use Rattle.side_model.specs.Sound.{HasLoads};
ghost use Rattle.side_model.specs.Steps.{step};
ghost use Rattle.proxy_core.specs.Keeping.{Keeps, AtRest, Stands, MOST_MADE};
ghost use Rattle.proxy_core.specs.Doing.{Does};
ghost use Rattle.proxy_core.specs.Treating.{HandsBack};

use super::*;
use crate::making::take_made;
use copy_workers::{CopyDone, CopyJob};

impl Machine {
    /// Gives the next copy that is to be made.
    #[tactic(auto, unfolding(side_model::specs::Steps::step))]
    pub(crate) fn next_copy(&mut self) -> Option<CopyJob>
        ensures copy { MatchOption self.old.fault
            (Lends result (first_waiting self.old.kept.jobs)) (λ _. result ≡ None) }
        ensures rest { MatchOption self.old.fault
            (self.new ≡ step Lent self.old) (λ _. self.new ≡ self.old) }
        ensures ready { IfSome result IsReady }
    {
        match self.fault {
            Some(_) => None,
            None => self.sending.next_copy(),
        }
    }

    /// Whether a copy with this number is out, and this is that copy.
    pub(crate) fn awaits(&self, done: &CopyDone) -> bool
        ensures { result ≡ awaits self.now.kept.jobs (done_of done.now) }
    {
        self.sending.awaits(done)
    }

    /// Takes a copy back, and does what is due then.
    ///
    /// # Errors
    /// The fault that is due, or want of memory; behind a fault, that one again.
    pub(crate) fn copy_done(&mut self, done: CopyDone) -> Result<(), ProxyFault>
        requires awaited { awaits self.old.kept.jobs (done_of done) ≡ true }
        requires few { ring_made self.old.kept.ring < 2 ^ 59 }
        requires stands { Stands self.old.fault self.old }
        ensures exact { Does (Handed (done_of done)) result self.old self.new }
        ensures rests { OnOk result (AtRest self.new) }
        ensures goes_on { OnOk result (self.new.fault ≡ None) }
    {
        match self.fault {
            Some(fault) => Err(fault),
            None => {
                self.hand_back(done)?;
                self.settle()
            }
        }
    }

    // Takes a copy back. The frames of its message are made behind the last one.
    fn hand_back(&mut self, done: CopyDone) -> Result<(), ProxyFault>
        requires running { self.old.fault ≡ None }
        requires awaited { awaits self.old.kept.jobs (done_of done) ≡ true }
        requires few { ring_made self.old.kept.ring < 2 ^ 59 }
        requires rests { AtRest self.old }
        ensures hands { HandsBack result self.old
            (step (Handed (done_of done)) self.old) self.new }
        ensures goes_on { OnOk result (self.new.fault ≡ None) }
    {
        has_loads(&done);
        if self.notes.reserve(1).is_err() {
            self.fault = Some(ProxyFault::Memory);
            return Err(ProxyFault::Memory);
        }
        let past = Past::behind(&self.sending, &done);
        if self.sending.copy_done(done).is_err() {
            self.fault = Some(ProxyFault::Memory);
            return Err(ProxyFault::Memory);
        }
        if self.sending.waiting() {
            return Ok(());
        }
        match take_made(
            self.alloc,
            &mut self.sending,
            &mut self.notes,
            &mut self.ring,
        ) {
            Ok(()) => Ok(()),
            Err(_) => {
                self.past = Some(past);
                self.fault = Some(ProxyFault::Memory);
                Err(ProxyFault::Memory)
            }
        }
    }
}

// The receipt of a copy stands for just the loads of its words: its type keeps that.
fn has_loads(done: &CopyDone)
    ensures { HasLoads (done_of done.now) }
{
    let _ = &done.receipt;
}
