//! What the peer puts on its wire.

ghost use Rattle.std.specs.Prelude.{◌≡◌, ℕ, ◌<◌, ◌^◌, true, None, OnOk};
ghost use Rattle.half_model.specs.declared.items.PeerIn.TheVariants.{Pipe};
ghost use Rattle.half_model.specs.PipeTurn.{item_by_rid};
ghost use Rattle.half_model.specs.TurnLaws.{IsPiece};
ghost use Rattle.pair_model.specs.RingState.{ring_made};
ghost use Rattle.send_half.specs.Treating.{IsFed};
ghost use Rattle.side_model.specs.Events.{Fed};
ghost use Rattle.side_model.specs.Shows.{wants_peer};
ghost use Rattle.side_model.specs.Sound.{IsItem};
ghost use Rattle.proxy_core.specs.Keeping.{AtRest};
ghost use Rattle.proxy_core.specs.Doing.{Begins, Does, pipe_unknown};

use super::*;
use half_model::{PeerCause, PeerIn};
use pipe_relay::PipeFault;
use wp_outside::PipeItem;

impl Machine {
    /// Takes an item of the peer, and does what is due then.
    ///
    /// # Errors
    /// `PipeUnknown` at once, where the item names no pipe whose end the peer holds; the fault that
    /// is due then, or want of memory.
    pub(crate) fn feed_peer(&mut self, item: PeerIn) -> Result<(), ProxyFault>
        requires wants { wants_peer self.old ≡ true }
        requires item { IsItem item }
        requires few { ring_made self.old.kept.ring < 2 ^ 59 }
        requires rests { AtRest self.old }
        ensures exact { Does (Fed item) result self.old self.new }
        ensures rests { OnOk result (AtRest self.new) }
        ensures goes_on { OnOk result (self.new.fault ≡ None) }
    {
        self.feed_item(item)?;
        self.settle()
    }

    // Takes an item of the peer.
    fn feed_item(&mut self, item: PeerIn) -> Result<(), ProxyFault>
        requires wants { wants_peer self.old ≡ true }
        requires item { IsItem item }
        requires few { ring_made self.old.kept.ring < 2 ^ 59 }
        requires rests { AtRest self.old }
        ensures { Begins result (Fed item) self.old self.new }
    {
        match item {
            PeerIn::Bytes(bytes) => self.feed_half(PeerIn::Bytes(bytes)),
            PeerIn::Handle(handle) => self.feed_half(PeerIn::Handle(handle)),
            PeerIn::Note(note) => self.feed_half(PeerIn::Note(note)),
            PeerIn::Pipe(item) => self.feed_pipe(item),
        }
    }

    // Takes bytes, a handle or a note.
    #[tactic(auto, unfolding(side_model::specs::Steps::step))]
    fn feed_half(&mut self, item: PeerIn) -> Result<(), ProxyFault>
        requires running { self.old.fault ≡ None }
        requires fed { IsFed item }
        ensures { Begins result (Fed item) self.old self.new }
    {
        match self.sending.feed(item) {
            Ok(()) => Ok(()),
            Err(_) => {
                self.fault = Some(ProxyFault::Memory);
                Err(ProxyFault::Memory)
            }
        }
    }

    // Takes what the peer does to a pipe.
    fn feed_pipe(&mut self, item: PipeItem) -> Result<(), ProxyFault>
        requires wants { wants_peer self.old ≡ true }
        requires piece { IsPiece item }
        requires few { ring_made self.old.kept.ring < 2 ^ 59 }
        requires rests { AtRest self.old }
        ensures { Begins result (Fed (Pipe item)) self.old self.new }
    {
        let Some(item) = self.name_pipe(item) else {
            let fault = self.pipe_unknown();
            self.fault = Some(fault);
            return Err(fault);
        };
        match self.pipes.from_peer(&item) {
            Ok(None) => Ok(()),
            Ok(Some(frame)) => self.make_lone(frame),
            Err(PipeFault::Memory) => {
                self.fault = Some(ProxyFault::Memory);
                Err(ProxyFault::Memory)
            }
            Err(_) => {
                let fault = self.pipe_unknown();
                self.fault = Some(fault);
                Err(fault)
            }
        }
    }

    // The item with the rid of its pipe. What the peer writes to names it, once the peer was given
    // that end; what it reads from has the peer's own number.
    fn name_pipe(&self, item: PipeItem) -> Option<PipeItem>
        ensures { result ≡ item_by_rid self.now.live.tables.handles self.now.live.taking.held item }
    {
        match item {
            PipeItem::Bytes { pipe, bytes } => {
                if self.taking.holds(pipe) {
                    Some(PipeItem::Bytes { pipe, bytes })
                } else {
                    None
                }
            }
            PipeItem::End { pipe } => {
                if self.taking.holds(pipe) {
                    Some(PipeItem::End { pipe })
                } else {
                    None
                }
            }
            PipeItem::Shut { pipe } => match self.handles.rid_of(pipe) {
                Some(rid) => Some(PipeItem::Shut { pipe: rid }),
                None => None,
            },
        }
    }

    // The fault of an item that names no pipe whose end the peer holds.
    fn pipe_unknown(&self) -> ProxyFault
        requires { self.now.fault ≡ None }
        ensures { result ≡ pipe_unknown self.now }
    {
        ProxyFault::Peer {
            index: self.taken,
            cause: PeerCause::PipeUnknown,
        }
    }
}
