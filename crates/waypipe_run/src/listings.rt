//! What the program answers to a stream of frames.

ghost use Rattle.std.specs.Prelude.{◌≡◌, ◌++◌, IfOk};
ghost use Rattle.waypipe_run.specs.Texts.{frame_text};
ghost use Rattle.waypipe_run.specs.Streams.{EndsListing};
ghost use Rattle.waypipe_run.specs.Top.{RepliesToStream};

use crate::replies::{Reply, ended};
use crate::status::{Reader, Status};
use crate::texts::{frame_text, rest_text};
use frame_stream::{StreamEnd, list_frames};
use std::alloc::{AllocError, Global};
use transfer_frames::FrameCause;
use wl_wire::{Bytes, Text};

/// The lines of a stream's frames, and the line for what stands behind them.
pub fn answer_stream(alloc: Global, bytes: Bytes) -> Result<Reply, AllocError>
    ensures { IfOk result (λ reply. RepliesToStream reply.status bytes reply.text) }
{
    let listing = list_frames(alloc, bytes.as_slice())?;
    end_listing(alloc, listing.lines, listing.stream_end)
}

/// The lines of frames with a last line.
fn end_listing(alloc: Global, lines: Text, end: StreamEnd) -> Result<Reply, AllocError>
    ensures { IfOk result (λ reply. EndsListing reply.status end lines reply.text) }
{
    match end {
        StreamEnd::Rest(count) => {
            let last = rest_text(alloc, count)?;
            ended(Status::Done, lines, last.as_str())
        }
        StreamEnd::Fault { place, cause } => refuse(alloc, lines, place, cause),
    }
}

/// The lines of frames with the line of the fault behind them.
fn refuse(alloc: Global, lines: Text, place: u64, cause: FrameCause) -> Result<Reply, AllocError>
    ensures status { IfOk result (λ reply. reply.status ≡ Status.Frame Reader.Input 0 place cause) }
    ensures text { IfOk result (λ reply. reply.text
        ≡ lines ++ frame_text Reader.Input 0 place cause) }
{
    let reader = Reader::Input;
    let connection = 0;
    let last = frame_text(alloc, reader, connection, place, cause)?;
    ended(
        Status::Frame {
            reader,
            connection,
            place,
            cause,
        },
        lines,
        last.as_str(),
    )
}
