//! What is owed for a message, with the copies that it waits for.

ghost use Rattle.std.specs.Prelude.{◌≡◌, IfOk};
ghost use Rattle.half_model.specs.Inlet.{eyes_in};
ghost use Rattle.owed_groups.specs.Owing.{Owes};

use crate::copies::Copies;
use crate::eyes::{covers, eyes_in, words_of};
use crate::jobs::jobs_of;
use crate::owed::OwedGroup;
use crate::pieces::pieces_of;
use message_plans::{FilledBlocks, FrameRow};
use shm_pools::Note;
use std::alloc::{AllocError, Global};
use wl_wire::Bytes;

/// What is owed for a message, and the copies that it waits for.
#[derive(Drop)]
pub struct Owing {
    pub owed: OwedGroup,
    pub copies: Copies,
}

/// What is owed for a message with these frames before its filled blocks, and the copies of these
/// blocks, numbered from `next` on; None exactly where the eyes of the note don't cover them.
///
/// # Errors
/// Only where memory runs out.
pub fn owing_for(
    alloc: Global,
    next: u64,
    before: FrameRow,
    filling: FilledBlocks,
    shown: Option<Bytes>,
    note: Option<Note>,
) -> Result<Option<Owing>, AllocError>
    ensures { IfOk result (Owes next before filling shown (eyes_in filling.file.number note)) }
{
    let (file, runs) = filling.into_parts();
    let mut eyes = eyes_in(alloc, file, note).into_vec();
    let segments = words_of(alloc, eyes.as_slice())?;
    if !covers(runs.as_slice(), segments.as_slice()) {
        return Ok(None);
    }
    let pieces = pieces_of(alloc, runs.as_slice())?;
    let copies = jobs_of(alloc, next, eyes.as_mut_slice(), file, pieces.as_slice())?;
    let owed = OwedGroup {
        before,
        file,
        pieces,
        segments,
        shown,
    };
    Ok(Some(Owing { owed, copies }))
}
