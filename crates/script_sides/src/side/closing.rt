//! How a side is asked to close.

ghost use Rattle.std.specs.Prelude.{◌≡◌};
ghost use Rattle.pair_runs.specs.Moves.{ClosedBy};
ghost use Rattle.script_sides.specs.Answering.{Answers, Leaves};
ghost use Rattle.script_sides.specs.Ready.{IsReady};
ghost use Rattle.script_sides.specs.Sided.{state_of};

use super::ScriptSide;
use side_model::ProxyFault;

/// The reason that a script gives for closing.
const REASON: u32 = 0;

impl ScriptSide {
    /// Asks the proxy to close; a second time changes nothing.
    ///
    /// # Errors
    /// Those of the proxy, or want of memory.
    pub fn close(&mut self) -> Result<(), ProxyFault>
        requires { IsReady self.old }
        ensures closes { Answers result (λ stop. ClosedBy (state_of self.old).inside.asked stop
            (state_of self.old) (state_of self.new)) }
        ensures leaves { Leaves result self.old self.new }
        ensures wire { self.new.peer.wire ≡ self.old.peer.wire }
    {
        if self.asked {
            return Ok(());
        }
        self.asked = true;
        let answer = self.trail.close(REASON);
        self.trail.stands();
        answer?;
        match self.give() {
            Ok(()) => Ok(()),
            Err(_) => Err(ProxyFault::Memory),
        }
    }
}
