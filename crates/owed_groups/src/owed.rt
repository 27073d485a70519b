//! What a side owes the other one for the last message that it took.

ghost use Rattle.std.specs.Prelude.{◌≡◌, ◌++◌, ◌*◌, ◌-◌, drop, IfOk, OnOk};
ghost use Rattle.half_model.specs.Filling.{words_bytes, fills};
ghost use Rattle.half_model.specs.Group.{frames_of, words_in};
ghost use Rattle.half_model.specs.Jobs.{copies_of};
ghost use Rattle.message_plans.specs.Blocks.{IsInFile, AreInFile, fill_of};
ghost use Rattle.owed_groups.specs.Slots.{words_from};

use crate::copies::Copies;
use crate::stage::WordPlace;
use block_intervals::Run;
use half_model::SentFile;
use message_plans::FrameRow;
use plain_lists::PlainList;
use std::alloc::{AllocError, Global};
use std::marker::Model;
use transfer_frames::Frame;
use wl_wire::Bytes;

/// The frames before the filled blocks, the file, the pieces of its blocks and how many words each
/// of its segments has, and the message as it is shown, if it is.
#[derive(Drop)]
pub struct OwedGroup {
    pub(crate) before: FrameRow,
    pub(crate) file: SentFile,
    pub(crate) pieces: PlainList<Run>,
    pub(crate) segments: PlainList<u32>,
    pub(crate) shown: Option<Bytes>,
}

impl Model for OwedGroup {
    ghost use Rattle.half_model.specs.Group.{Owed};
    ghost use Rattle.message_plans.specs.Blocks.{AreInFile};

    ghost Value = { Owed };

    ghost view = { λ owed. record {
      before = owed.before;
      rid = owed.file.rid;
      file = owed.file.number;
      pieces = owed.pieces;
      segments = owed.segments;
      shown = owed.shown;
    } };

    ghost invariant = { λ owed. AreInFile owed.pieces };
}

impl OwedGroup {
    /// The frames of the group, with the words that came back.
    ///
    /// # Errors
    /// Only where memory runs out.
    pub(crate) fn into_frames(self, alloc: Global, copies: &Copies) -> Result<FrameRow, AllocError>
        ensures { IfOk result (λ row. row
            ≡ frames_of self (words_bytes (words_in (copies_of copies.now)))) }
    {
        let OwedGroup {
            before,
            file,
            pieces,
            segments: _,
            shown,
        } = self;
        let row = put_fills(alloc, before, file, pieces.as_slice(), copies)?;
        match shown {
            Some(messages) => row.push(Frame::Protocol { messages }),
            None => Ok(row),
        }
    }
}

// Puts a FILL for each piece behind other frames.
#[tactic(auto, using(crate::proofs::WordLemmas::bytes_are))]
fn put_fills(
    alloc: Global,
    before: FrameRow,
    file: SentFile,
    pieces: &[Run],
    copies: &Copies,
) -> Result<FrameRow, AllocError>
    requires { AreInFile pieces.now }
    ensures { IfOk result (λ all. all
        ≡ before ++ fills file.rid pieces.now (words_bytes (words_in (copies_of copies.now)))) }
{
    let mut row = before;
    let mut place = WordPlace { job: 0, word: 0 };
    for piece in pieces {
        let frame = fill(alloc, file, *piece, copies, &mut place)?;
        row = row.push(frame)?;
    }
    Ok(row)
}

// The FILL of a piece, with the next words.
#[tactic(auto, using(crate::proofs::WordLemmas::piece_bytes, crate::proofs::WordLemmas::piece_rest))]
fn fill(
    alloc: Global,
    file: SentFile,
    piece: Run,
    copies: &Copies,
    place: &mut WordPlace,
) -> Result<Frame, AllocError>
    requires { IsInFile piece }
    ensures frame { IfOk result (λ frame. frame
        ≡ fill_of file.rid piece (words_bytes (words_from place.old copies.now))) }
    ensures rest { OnOk result (words_bytes (words_from place.new copies.now)
        ≡ drop (64 * (piece.end - piece.first))
        (words_bytes (words_from place.old copies.now))) }
{
    let count = (piece.end - piece.first) as usize;
    let mut bytes = Vec::with_capacity(alloc, 64 * count)?;
    copies.append_words(place, 8 * count, &mut bytes)?;
    Ok(Frame::Fill {
        rid: file.rid,
        start: 64 * piece.first,
        end: 64 * piece.end,
        bytes: Bytes::from_vec(bytes),
    })
}
