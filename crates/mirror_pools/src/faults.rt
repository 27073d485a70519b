//! Why a file is not opened or does not grow.

ghost use Rattle.std.specs.Prelude.{◌≡◌};
ghost use Rattle.mirror_pools.specs.declared.faults.MirrorFault.TheVariants.{Frame as ByFrame};
ghost use Rattle.mirror_pools.specs.declared.faults.MirrorFault.TheVariants.{Memory};

use std::alloc::AllocFailed;
use transfer_frames::FrameCause;

/// Why a file is not opened or does not grow.
#[derive(Clone, Copy, Debug, PartialEq, Eq)]
pub enum MirrorFault {
    /// The frame that says so is refused.
    Frame(FrameCause),
    /// Memory ran out.
    Memory,
}

impl From<FrameCause> for MirrorFault {
    ghost from_gives = { λ cause fault. fault ≡ ByFrame cause };

    fn from(cause: FrameCause) -> MirrorFault {
        MirrorFault::Frame(cause)
    }
}

impl<T: Drop> From<AllocFailed<T>> for MirrorFault {
    ghost from_gives = { λ _ fault. fault ≡ Memory };

    fn from(_: AllocFailed<T>) -> MirrorFault {
        MirrorFault::Memory
    }
}
