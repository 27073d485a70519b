//! How all that a proxy gives comes to its peer.

ghost use Rattle.std.specs.Prelude.{◌≡◌, IfOk, OnOk};
ghost use Rattle.script_sides.specs.Giving.{GivesNext, Gives};
ghost use Rattle.script_sides.specs.Ready.{IsSound, IsReady};

use super::ScriptSide;
use std::alloc::AllocError;

impl ScriptSide {
    /// Gives the peer all that the proxy has for it.
    ///
    /// # Errors
    /// Only where memory runs out.
    pub(super) fn give(&mut self) -> Result<(), AllocError>
        requires { IsSound self.old }
        ensures gives { OnOk result (Gives self.old self.new) }
        ensures ready { OnOk result (IsReady self.new) }
        ensures wire { self.new.peer.wire ≡ self.old.peer.wire }
    {
        'items: loop {
            if !self.give_next()? {
                return Ok(());
            }
        }
    }

    /// Gives the peer the next item; false where there is none.
    fn give_next(&mut self) -> Result<bool, AllocError>
        requires { IsSound self.old }
        ensures gives { IfOk result (λ more. GivesNext more self.old self.new) }
        ensures sound { OnOk result (IsSound self.new) }
        ensures wire { self.new.peer.wire ≡ self.old.peer.wire }
    {
        let item = self.trail.peer_out();
        self.trail.stands();
        match item {
            Some(item) => {
                self.peer.given(item)?;
                Ok(true)
            }
            None => Ok(false),
        }
    }
}
