//! Why a line is not read.

ghost use Rattle.std.specs.Prelude.{◌≡◌};
ghost use Rattle.script_lang.specs.declared.faults.LineFault.TheVariants.{Cause, Memory};

use crate::causes::ScriptCause;
use std::alloc::AllocError;

/// Why a line is not read.
#[derive(Clone, Copy, Debug, PartialEq, Eq)]
pub enum LineFault {
    /// It is no line of a script.
    Cause(ScriptCause),
    /// Memory ran out.
    Memory,
}

impl From<ScriptCause> for LineFault {
    ghost from_gives = { λ cause fault. fault ≡ Cause cause };

    fn from(cause: ScriptCause) -> LineFault {
        LineFault::Cause(cause)
    }
}

impl From<AllocError> for LineFault {
    ghost from_gives = { λ _ fault. fault ≡ Memory };

    fn from(_: AllocError) -> LineFault {
        LineFault::Memory
    }
}
