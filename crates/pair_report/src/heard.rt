//! The frames that a side accepted, from the bytes that it read.

ghost use Rattle.std.specs.Prelude.{◌≡◌, ◌-◌, [], ◌∷◌, length, take, IfOk, OnOk, map};
ghost use Rattle.pair_model.specs.Rows.{counted};
ghost use Rattle.trail_records.specs.Noting.{trail_of};
ghost use Rattle.trail_records.specs.Rows.{line_of};
ghost use Rattle.pair_report.specs.Heard.{frames_in, counted_on, accepted_of};
ghost use Rattle.pair_report.specs.Meant.{with_frames, meaning};

use crate::meaning::Meaning;
use std::alloc::{AllocError, Global};
use trail_records::{LineRecord, TrailRecord};
use transfer_frames::{DecodeFault, Frame, FrameRole, first_frame, part_of};

/// What the frames mean that a side accepted: of the counted frames that it read, connection by
/// connection, as many as its record counts. Frames behind those, which stand behind a refused one,
/// are not read.
///
/// # Errors
/// Only where memory runs out.
pub(crate) fn meaning_of(alloc: Global, kept: &TrailRecord) -> Result<Meaning, AllocError>
    ensures { IfOk result (λ it. it ≡ meaning (accepted_of (trail_of kept.now))) }
{
    let mut meaning = Meaning::new(alloc);
    take_lines(alloc, &mut meaning, kept.accepted, kept.lines.as_slice())?;
    Ok(meaning)
}

// Takes the first so many counted frames in that were read on these connections.
fn take_lines(
    alloc: Global,
    meaning: &mut Meaning,
    count: u64,
    lines: &[LineRecord],
) -> Result<(), AllocError>
    ensures { OnOk result (meaning.new
        ≡ with_frames (take count (counted_on (map line_of lines.now))) meaning.old) }
{
    let mut left = count;
    for line in lines {
        left = take_line(alloc, meaning, left, line.read.as_slice())?;
    }
    Ok(())
}

// Takes the first so many counted frames in that were read on a connection, and answers how many
// are left to be taken.
fn take_line(
    alloc: Global,
    meaning: &mut Meaning,
    count: u64,
    read: &[u8],
) -> Result<u64, AllocError>
    ensures taken { OnOk result (meaning.new
        ≡ with_frames (take count (counted (frames_in read.now))) meaning.old) }
    ensures left { IfOk result (λ left. left ≡ count - length (counted (frames_in read.now))) }
{
    let mut left = count;
    let mut rest = read;
    while left > 0 {
        match first_frame(alloc, rest) {
            Ok(Some((frame, length))) => {
                left -= take_counted(meaning, frame)?;
                rest = rest.split_at(length).1;
            }
            Ok(None) => return Ok(left),
            Err(DecodeFault::Frame(_)) => return Ok(left),
            Err(DecodeFault::Memory) => return Err(AllocError),
        }
    }
    Ok(0)
}

// Takes a frame in, if it is counted, and answers how many were taken.
fn take_counted(meaning: &mut Meaning, frame: Frame) -> Result<u64, AllocError>
    ensures taken { OnOk result (meaning.new ≡ with_frames (counted (frame ∷ [])) meaning.old) }
    ensures count { IfOk result (λ n. n ≡ length (counted (frame ∷ []))) }
{
    match part_of(&frame) {
        FrameRole::Counted { .. } => {
            meaning.take(frame)?;
            Ok(1)
        }
        FrameRole::Tells { .. } => Ok(0),
        FrameRole::Greets { .. } => Ok(0),
    }
}
