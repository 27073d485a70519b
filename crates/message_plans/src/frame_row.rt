//! The frames of one message, each made twice: for the link and for what is noted.

ghost use Rattle.std.specs.Prelude.{◌≡◌, ◌∷◌, [], ◌++◌, IfOk};

use half_model::FrameList;
use std::alloc::{AllocError, Global};
use std::collections::VecDeque;
use std::marker::Model;
use transfer_frames::Frame;

/// Frames in order, and a copy of each.
#[derive(Drop)]
pub struct FrameRow {
    made: VecDeque<Frame>,
    kept: FrameList,
}

impl Model for FrameRow {
    ghost use Rattle.std.specs.Prelude.{◌≡◌, List};
    ghost use Rattle.transfer_frames.specs.declared.frame.Frame.{Frame};

    ghost Value = { List Frame };

    ghost view = { λ row. row.made.items };

    ghost invariant = { λ row. row.kept ≡ row.made.items };
}

impl FrameRow {
    /// No frame. Takes no memory.
    pub fn new(alloc: Global) -> FrameRow
        ensures { result ≡ [] }
    {
        FrameRow {
            made: VecDeque::new(alloc),
            kept: FrameList::new(alloc),
        }
    }

    /// Puts a frame behind the others; its bytes are copied once.
    ///
    /// # Errors
    /// Only where memory runs out; the row is then of no use.
    pub fn push(self, frame: Frame) -> Result<FrameRow, AllocError>
        ensures { IfOk result (λ row. row ≡ self ++ frame ∷ []) }
    {
        let FrameRow { mut made, mut kept } = self;
        kept.push(frame.clone()?)?;
        made.push_back(frame)?;
        Ok(FrameRow { made, kept })
    }

    /// The frames, and their copies.
    pub fn into_parts(self) -> (VecDeque<Frame>, FrameList)
        ensures made { result.0.items ≡ self }
        ensures kept { result.1 ≡ self }
    {
        let FrameRow { made, kept } = self;
        (made, kept)
    }
}
