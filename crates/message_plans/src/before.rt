//! The frames of a message that stand before its filled blocks.

ghost use Rattle.std.specs.Prelude.{◌≡◌, ◌++◌, IfOk, option_map};
ghost use Rattle.half_model.specs.Planning.{pipe_opened, injected, is_new_pipe, size_frame};
ghost use Rattle.message_plans.specs.Making.{passing_in, tell_in};
ghost use Rattle.message_plans.specs.Telling.{sized};

use crate::frame_row::FrameRow;
use crate::made::{PassedHandle, ToldSize};
use std::alloc::{AllocError, Global};
use transfer_frames::Frame;
use wl_wire::HandleNumbers;
use wp_outside::HandleKind;

/// The frames before the filled blocks: for the handle and the size that the message says, where
/// the told size grows by it.
///
/// # Errors
/// Only where memory runs out.
pub(crate) fn frames_before(
    alloc: Global,
    passing: Option<PassedHandle>,
    tell: Option<ToldSize>,
    grows: bool,
) -> Result<FrameRow, AllocError>
    ensures { IfOk result (λ row. row ≡ pipe_opened (option_map passing_in passing)
        ++ (sized (option_map tell_in tell) grows ++ injected (option_map passing_in passing))) }
{
    let row = FrameRow::new(alloc);
    let row = open_pipe(row, passing)?;
    let row = give_size(row, tell, grows)?;
    inject(alloc, row, passing)
}

// A pipe's end that is passed for the first time.
fn open_pipe(row: FrameRow, passing: Option<PassedHandle>) -> Result<FrameRow, AllocError>
    ensures { IfOk result (λ all. all ≡ row ++ pipe_opened (option_map passing_in passing)) }
{
    match passing {
        Some(it) => {
            if is_new_pipe(it) {
                row.push(Frame::OpenPipe { rid: it.rid })
            } else {
                Ok(row)
            }
        }
        None => Ok(row),
    }
}

/// Whether a pipe's end is passed for the first time.
pub fn is_new_pipe(it: PassedHandle) -> bool
    ensures { result ≡ is_new_pipe (passing_in it) }
{
    it.handle.kind == HandleKind::PipeWrite && it.is_new
}

// A file is opened that is passed for the first time, and extended where it was passed before.
fn give_size(row: FrameRow, tell: Option<ToldSize>, grows: bool) -> Result<FrameRow, AllocError>
    ensures { IfOk result (λ all. all ≡ row ++ sized (option_map tell_in tell) grows) }
{
    match tell {
        Some(tell) => {
            if grows {
                row.push(size_frame(tell))
            } else {
                Ok(row)
            }
        }
        None => Ok(row),
    }
}

fn size_frame(tell: ToldSize) -> Frame
    ensures { result ≡ size_frame (tell_in tell) }
{
    if tell.is_new {
        Frame::OpenFile {
            rid: tell.file.rid,
            size: tell.size,
        }
    } else {
        Frame::ExtendFile {
            rid: tell.file.rid,
            size: tell.size,
        }
    }
}

// The rid of the handle that the message carries.
fn inject(
    alloc: Global,
    row: FrameRow,
    passing: Option<PassedHandle>,
) -> Result<FrameRow, AllocError>
    ensures { IfOk result (λ all. all ≡ row ++ injected (option_map passing_in passing)) }
{
    match passing {
        Some(it) => {
            let rids = HandleNumbers::from_slice(alloc, &[it.rid])?;
            row.push(Frame::Inject { rids })
        }
        None => Ok(row),
    }
}
