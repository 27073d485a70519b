//! The tests of a file's size, by its own size and by the sum of all sizes.

ghost use Rattle.std.specs.Prelude.{◌≡◌, ◌+◌, ◌-◌, IfOk, IfSome};
ghost use Rattle.transfer_frames.specs.Faults.{first_of};
ghost use Rattle.mirror_pools.specs.Answers.{Tests};
ghost use Rattle.mirror_pools.specs.Sizes.{rounded, size_tests, new_cause, grow_cause, range_cause};

use transfer_frames::FrameCause;

// The greatest size of a file in bytes.
const FILE_LIMIT: u32 = 67_108_864;

// The greatest sum of the sizes of all files in bytes.
const SUM_LIMIT: u32 = 268_435_456;

/// A size rounded up to whole blocks of 64 bytes.
pub(crate) fn rounded(size: u32) -> u64
    ensures { result ≡ rounded size }
{
    u64::from(size).div_ceil(64) * 64
}

/// The sum of all sizes with a new file of this size, or the cause to refuse it. None stands for a
/// rid that isn't open.
pub(crate) fn sum_if_opened(old: Option<u32>, size: u32, sum: u32) -> Result<u32, FrameCause>
    ensures tests { Tests result (new_cause old size sum) }
    ensures sum { IfOk result (λ new. new ≡ sum + size) }
{
    if old.is_some() {
        return Err(FrameCause::RidInUse);
    }
    sum_if_fits(size, sum)
}

/// The sum of all sizes with this size in the place of a file's old one, or the cause to refuse it.
/// None stands for a file that isn't open.
pub(crate) fn sum_if_grown(old: Option<u32>, size: u32, sum: u32) -> Result<u32, FrameCause>
    ensures tests { Tests result (grow_cause old size sum) }
    ensures sum { IfOk result (λ new. IfSome old (λ o. new ≡ sum - o + size)) }
{
    match old {
        Some(old) => {
            if size < old {
                return Err(FrameCause::ExtendSmaller);
            }
            sum_if_fits(size, sum.saturating_sub(old))
        }
        None => Err(FrameCause::RidUnknown),
    }
}

// The sum of a size and all others, or the cause to refuse it.
fn sum_if_fits(size: u32, others: u32) -> Result<u32, FrameCause>
    ensures tests { Tests result (first_of (size_tests size others)) }
    ensures sum { IfOk result (λ new. new ≡ others + size) }
{
    if size > FILE_LIMIT {
        return Err(FrameCause::FileTooLarge);
    }
    match others.checked_add(size) {
        Some(sum) => {
            if sum > SUM_LIMIT {
                return Err(FrameCause::FilesTooLarge);
            }
            Ok(sum)
        }
        None => Err(FrameCause::FilesTooLarge),
    }
}

/// Tests new bytes of a file of this size, which end here. None stands for a file that isn't open.
pub(crate) fn check_range(size: Option<u32>, end: u32) -> Result<(), FrameCause>
    ensures { Tests result (range_cause size end) }
{
    match size {
        Some(size) => {
            if u64::from(end) > rounded(size) {
                return Err(FrameCause::FillOutside);
            }
            Ok(())
        }
        None => Err(FrameCause::RidUnknown),
    }
}
