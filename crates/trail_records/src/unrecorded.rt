//! Why something is not recorded.

ghost use Rattle.std.specs.Prelude.{◌≡◌};
ghost use Rattle.trail_records.specs.declared.unrecorded.Unrecorded.TheVariants as reasons;

use std::alloc::{AllocError, AllocFailed};

/// Why something is not recorded.
#[derive(Clone, Copy, Debug, PartialEq, Eq)]
pub enum Unrecorded {
    /// With it the records would weigh more than 268,435,456.
    TooHeavy,
    /// Memory ran out.
    Memory,
}

impl From<AllocError> for Unrecorded {
    ghost from_gives = { λ _ why. why ≡ reasons.Memory };

    fn from(_: AllocError) -> Unrecorded {
        Unrecorded::Memory
    }
}

impl<T: Drop> From<AllocFailed<T>> for Unrecorded {
    ghost from_gives = { λ _ why. why ≡ reasons.Memory };

    fn from(_: AllocFailed<T>) -> Unrecorded {
        Unrecorded::Memory
    }
}
