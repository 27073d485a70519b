//! Why what happens at a pipe is refused.

ghost use Rattle.std.specs.Prelude.{◌≡◌};
ghost use Rattle.pipe_relay.specs.declared.faults.PipeFault.TheVariants.{Memory};

use std::alloc::{AllocError, AllocFailed};

/// Why what happens at a pipe is refused.
#[derive(Clone, Copy, Debug, PartialEq, Eq)]
pub enum PipeFault {
    /// There is no such pipe, it isn't this end's to use, or the peer has closed this end.
    Unknown,
    /// The other side speaks of an end that it has closed.
    Shut,
    /// Memory ran out.
    Memory,
}

impl From<AllocError> for PipeFault {
    ghost from_gives = { λ _ fault. fault ≡ Memory };

    fn from(_: AllocError) -> PipeFault {
        PipeFault::Memory
    }
}

impl<T: Drop> From<AllocFailed<T>> for PipeFault {
    ghost from_gives = { λ _ fault. fault ≡ Memory };

    fn from(_: AllocFailed<T>) -> PipeFault {
        PipeFault::Memory
    }
}
