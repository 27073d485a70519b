//! What a proxy gives and shows, without memory.

ghost use Rattle.std.specs.Prelude.{◌≡◌, ◌+◌, ◌≤◌, ◌&&◌, None, MatchOption, is_none, slice_get};
ghost use Rattle.pair_model.specs.RingState.{ring_made};
ghost use Rattle.side_model.specs.Events.{Gave, Told};
ghost use Rattle.side_model.specs.Shows.{wants_peer, has_ended, next_item};
ghost use Rattle.side_model.specs.Steps.{step};
ghost use Rattle.proxy_core.specs.Keeping.{Stands};

use super::*;
use half_model::PeerOut;

impl Machine {
    /// Whether it takes from its peer.
    pub(crate) fn wants_peer(&self) -> bool
        ensures { result ≡ wants_peer self.now }
    {
        self.fault.is_none() && self.closing == Closing::Open && self.is_free()
    }

    /// The next item of the peer: what the other side has for it goes before the receipts of its own
    /// copies.
    #[tactic(auto, unfolding(side_model::specs::Steps::step))]
    pub(crate) fn peer_out(&mut self) -> Option<PeerOut>
        ensures item { MatchOption self.old.fault
            (result ≡ next_item self.old.live) (λ _. result ≡ None) }
        ensures rest { MatchOption self.old.fault
            (self.new ≡ step Gave self.old) (λ _. self.new ≡ self.old) }
    {
        if self.fault.is_some() {
            return None;
        }
        match self.taking.next() {
            Some(item) => Some(item),
            None => match self.sending.next_receipt() {
                Some(it) => Some(PeerOut::Receipt {
                    number: it.number,
                    segment: it.segment,
                    receipt: it.receipt,
                }),
                None => None,
            },
        }
    }

    /// What was noted next.
    #[tactic(auto, unfolding(side_model::specs::Steps::step))]
    pub(crate) fn noted(&mut self) -> Option<Noted>
        ensures note { result ≡ slice_get self.old.kept.notes 0 }
        ensures rest { self.new ≡ step Told self.old }
    {
        self.notes.pop_front()
    }

    /// Whether the other side's CLOSE was accepted.
    pub(crate) fn heard_close(&self) -> bool
        ensures { result ≡ self.now.kept.heard_close }
    {
        self.counts.closed()
    }

    /// Whether CLOSE was made and accepted with all else, the other side's was heard, and nothing is
    /// still to be written.
    pub(crate) fn ended(&self) -> bool
        requires { Stands self.now.fault self.now }
        ensures { result ≡ has_ended self.now }
    {
        self.closing == Closing::Made
            && self.ring.made() == self.ring.acknowledged()
            && self.counts.closed()
            && self.link_out().is_empty()
    }

    /// How many frames of the other side were accepted.
    pub(crate) fn accepted(&self) -> u64
        ensures { result ≡ self.now.kept.accepted }
    {
        self.counts.accepted()
    }

    /// How many of the own frames are known to be accepted.
    pub(crate) fn acknowledged(&self) -> u64
        ensures exact { result ≡ self.now.kept.ring.acknowledged }
        ensures made { ring_made self.now.kept.ring ≤ result + 8192 }
    {
        self.ring.acknowledged()
    }
}
