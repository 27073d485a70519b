//! To make CLOSE.

ghost use Rattle.std.specs.Prelude.{◌≡◌, ◌<◌, None, OnOk, IfErr};
ghost use Rattle.side_model.specs.Due.{treat, end};
ghost use Rattle.side_model.specs.Events.{Asks, Rest};
ghost use Rattle.side_model.specs.Steps.{step};
ghost use Rattle.proxy_core.specs.Keeping.{Keeps, MOST_MADE};
ghost use Rattle.proxy_core.specs.Doing.{Fails};
ghost use Rattle.proxy_core.specs.Treating.{IsStill, GoesOn};

use super::*;
use transfer_frames::Frame;

impl Machine {
    // Makes CLOSE, where the proxy was asked to close and no message is owed and none waits.
    pub(super) fn end(&mut self) -> Result<(), ProxyFault>
        requires running { self.old.fault ≡ None }
        requires keeps { Keeps self.old }
        requires still { IsStill self.old }
        requires treats { treat self.old ≡ Rest }
        requires few { self.old.kept.ring.acknowledged < MOST_MADE }
        ensures went { OnOk result (GoesOn self.old self.new) }
        ensures treats { OnOk result (treat self.new ≡ Rest) }
        ensures rests { OnOk result (end self.new ≡ Rest) }
        ensures goes_on { OnOk result (self.new.fault ≡ None) }
        ensures fails { IfErr result (λ fault. Fails fault self.old self.new) }
    {
        let reason = match self.closing {
            Closing::Open => return Ok(()),
            Closing::Asked { reason } => reason,
            Closing::Made => return Ok(()),
        };
        if self.sending.waiting() {
            return Ok(());
        }
        if self.sending.stands() {
            return Ok(());
        }
        self.make_lone(Frame::Close { reason })?;
        self.closing = Closing::Made;
        Ok(())
    }

    // Remembers that it is to close, where it was not asked before.
    #[tactic(auto, unfolding(side_model::specs::Steps::step))]
    pub(super) fn ask(&mut self, reason: u32)
        ensures { self.new ≡ step (Asks reason) self.old }
    {
        match self.closing {
            Closing::Open => self.closing = Closing::Asked { reason },
            Closing::Asked { .. } => {}
            Closing::Made => {}
        }
    }
}
