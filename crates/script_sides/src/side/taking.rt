//! How a side takes from its peer's wire.

ghost use Rattle.std.specs.Prelude.{◌≡◌, true, false, Ok};
ghost use Rattle.pair_runs.specs.Sides.{fed, wants};
ghost use Rattle.pair_runs.specs.Taking.{TakesAll};
ghost use Rattle.receipt_laws.specs.Owning.{PutIsOwn};
ghost use Rattle.script_sides.specs.Answering.{Answers, Leaves};
ghost use Rattle.script_sides.specs.Ready.{IsReady, OwnOf};
ghost use Rattle.script_sides.specs.Sided.{state_of, taker_of};
ghost use Rattle.script_sides.specs.Takings.{Feeds, TakesNext, TookSome};
ghost use Rattle.side_model.specs.Sound.{IsItem};

use super::ScriptSide;
use half_model::PeerIn;
use side_model::ProxyFault;

impl ScriptSide {
    /// Takes from the peer's wire, item by item while it wants them, where at most so many bytes
    /// may be taken; true where an item was taken.
    ///
    /// # Errors
    /// Those of the proxy, or want of memory.
    pub fn take(&mut self, most: usize) -> Result<bool, ProxyFault>
        requires { IsReady self.old }
        ensures takes { Answers result (TakesAll most (taker_of self.old) (taker_of self.new)) }
        ensures none { result ≡ Ok false → taker_of self.new ≡ taker_of self.old }
        ensures some { result ≡ Ok true → TookSome most (taker_of self.old) }
        ensures leaves { Leaves result self.old self.new }
    {
        let mut left = most;
        let mut took = false;
        'items: loop {
            match self.take_next(left)? {
                Some(cost) => {
                    left -= cost;
                    took = true;
                }
                None => return Ok(took),
            }
        }
    }

    /// Takes the next item, where at most so many bytes may be taken, and tells what it costs; None
    /// where none is taken.
    fn take_next(&mut self, most: usize) -> Result<Option<usize>, ProxyFault>
        requires { IsReady self.old }
        ensures takes { TakesNext most (taker_of self.old) (taker_of self.new) result }
        ensures leaves { Leaves result self.old self.new }
    {
        if !self.trail.wants_peer() {
            return Ok(None);
        }
        match self.peer.next(most) {
            Ok(Some(it)) => {
                let cost = it.cost;
                self.feed(it.item)?;
                Ok(Some(cost))
            }
            Ok(None) => Ok(None),
            Err(_) => Err(ProxyFault::Memory),
        }
    }

    /// Feeds the proxy an item that left the peer's wire.
    fn feed(&mut self, item: PeerIn) -> Result<(), ProxyFault>
        requires ready { IsReady self.old }
        requires wants { wants (state_of self.old) ≡ true }
        requires item { IsItem item }
        requires own { PutIsOwn (OwnOf self.old.peer) item }
        ensures works { Feeds item result (state_of self.old) (state_of self.new) }
        ensures leaves { Leaves result self.old self.new }
        ensures wire { self.new.peer.wire ≡ self.old.peer.wire }
    {
        let answer = self.trail.feed_peer(item);
        self.trail.stands();
        answer?;
        match self.give() {
            Ok(()) => Ok(()),
            Err(_) => Err(ProxyFault::Memory),
        }
    }
}
