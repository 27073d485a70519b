//! How want of memory, and the cause to refuse a frame, become faults of a half.

ghost use Rattle.std.specs.Prelude.{◌≡◌};
ghost use Rattle.half_model.specs.declared.causes.HalfFault.TheVariants as halves;
ghost use Rattle.half_model.specs.declared.causes.TakeFault.TheVariants as takes;

use crate::causes::{HalfFault, TakeFault};
use std::alloc::{AllocError, AllocFailed};
use transfer_frames::FrameCause;

impl From<AllocError> for HalfFault {
    ghost from_gives = { λ _ fault. fault ≡ halves.Memory };

    fn from(_: AllocError) -> HalfFault {
        HalfFault::Memory
    }
}

impl<T: Drop> From<AllocFailed<T>> for HalfFault {
    ghost from_gives = { λ _ fault. fault ≡ halves.Memory };

    fn from(_: AllocFailed<T>) -> HalfFault {
        HalfFault::Memory
    }
}

impl From<AllocError> for TakeFault {
    ghost from_gives = { λ _ fault. fault ≡ takes.Memory };

    fn from(_: AllocError) -> TakeFault {
        TakeFault::Memory
    }
}

impl<T: Drop> From<AllocFailed<T>> for TakeFault {
    ghost from_gives = { λ _ fault. fault ≡ takes.Memory };

    fn from(_: AllocFailed<T>) -> TakeFault {
        TakeFault::Memory
    }
}

impl From<FrameCause> for TakeFault {
    ghost from_gives = { λ cause fault. fault ≡ takes.Frame cause };

    fn from(cause: FrameCause) -> TakeFault {
        TakeFault::Frame(cause)
    }
}
