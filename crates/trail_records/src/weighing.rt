//! What more the records may weigh.

ghost use Rattle.std.specs.Prelude.{◌≡◌, ◌+◌, ◌*◌, ◌≤◌, length, sum_by};
ghost use Rattle.std.specs.List.{AllByRecursion};
ghost use Rattle.transfer_frames.specs.Grammar.{IsFrame};
ghost use Rattle.side_model.specs.Books.{MOST_WEIGHT, ITEM_WEIGHT, spelled};
ghost use Rattle.trail_records.specs.Noting.{Weighs};

use crate::unrecorded::Unrecorded;
use transfer_frames::{Frame, spelled_len};

// The greatest weight of a side's records.
const WEIGHT_LIMIT: u64 = 268_435_456;

// What each copy and each connection weighs.
const WEIGHT_OF_ITEM: usize = 16;

/// A weight with so many bytes more.
///
/// # Errors
/// `TooHeavy` where it is above the limit.
pub(crate) fn with_bytes(weight: u64, more: usize) -> Result<u64, Unrecorded>
    requires { weight ≤ MOST_WEIGHT }
    ensures { Weighs result (weight + more) }
{
    if more as u64 <= WEIGHT_LIMIT - weight {
        Ok(weight + more as u64)
    } else {
        Err(Unrecorded::TooHeavy)
    }
}

/// A weight with so many copies or connections more.
///
/// # Errors
/// `TooHeavy` where it is above the limit.
pub(crate) fn with_items(weight: u64, count: usize) -> Result<u64, Unrecorded>
    requires { weight ≤ MOST_WEIGHT }
    ensures { Weighs result (weight + ITEM_WEIGHT * count) }
{
    if count as u64 <= WEIGHT_LIMIT {
        with_bytes(weight, WEIGHT_OF_ITEM * count)
    } else {
        Err(Unrecorded::TooHeavy)
    }
}

/// A weight with frames more, each as its bytes.
///
/// # Errors
/// `TooHeavy` where it is above the limit.
pub(crate) fn with_frames(weight: u64, frames: &[Frame]) -> Result<u64, Unrecorded>
    requires light { weight ≤ MOST_WEIGHT }
    requires frames { AllByRecursion IsFrame frames.now }
    ensures { Weighs result (weight + sum_by spelled frames.now) }
{
    let mut total = weight;
    for frame in frames {
        total = with_bytes(total, spelled_len(frame))?;
    }
    Ok(total)
}
