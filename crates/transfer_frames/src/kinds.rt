//! The types of frames, by their names.

ghost use Rattle.std.specs.Prelude.{◌≡◌, ◌+◌, ◌*◌, ◌≤◌};
ghost use Rattle.transfer_frames.specs.Grammar.{type_at, type_of, type_number};

use crate::frame::{Frame, LARGEST_FRAME};

/// The type of a frame.
#[derive(Clone, Copy, Debug, PartialEq, Eq)]
pub enum FrameType {
    Protocol,
    Inject,
    OpenFile,
    ExtendFile,
    Fill,
    OpenPipe,
    PipeTransfer,
    PipeShutR,
    PipeShutW,
    Ack,
    Restart,
    Close,
}

/// The type that has this number, if there is one.
#[tactic(auto, unfolding(crate::specs::Grammar::type_at))]
pub fn type_with(number: u32) -> Option<FrameType>
    ensures { result ≡ type_at number }
{
    match number {
        0 => Some(FrameType::Protocol),
        1 => Some(FrameType::Inject),
        2 => Some(FrameType::OpenFile),
        3 => Some(FrameType::ExtendFile),
        5 => Some(FrameType::Fill),
        8 => Some(FrameType::OpenPipe),
        10 => Some(FrameType::PipeTransfer),
        11 => Some(FrameType::PipeShutR),
        12 => Some(FrameType::PipeShutW),
        16 => Some(FrameType::Ack),
        17 => Some(FrameType::Restart),
        18 => Some(FrameType::Close),
        _ => None,
    }
}

impl FrameType {
    /// The type's number in the first word.
    pub fn number(self) -> u32
        ensures { result ≡ type_number self }
    {
        match self {
            FrameType::Protocol => 0,
            FrameType::Inject => 1,
            FrameType::OpenFile => 2,
            FrameType::ExtendFile => 3,
            FrameType::Fill => 5,
            FrameType::OpenPipe => 8,
            FrameType::PipeTransfer => 10,
            FrameType::PipeShutR => 11,
            FrameType::PipeShutW => 12,
            FrameType::Ack => 16,
            FrameType::Restart => 17,
            FrameType::Close => 18,
        }
    }
}

impl FrameType {
    /// The first word of a frame of this type that has this size, its padding not counted.
    pub(crate) fn first_word(self, size: u32) -> u32
        requires { size ≤ LARGEST_FRAME }
        ensures { result ≡ size * 32 + type_number self }
    {
        size * 32 + self.number()
    }
}

impl Frame {
    /// The frame's type.
    pub(crate) fn frame_type(&self) -> FrameType
        ensures { result ≡ type_of self.now }
    {
        match self {
            Frame::Protocol { .. } => FrameType::Protocol,
            Frame::Inject { .. } => FrameType::Inject,
            Frame::OpenFile { .. } => FrameType::OpenFile,
            Frame::ExtendFile { .. } => FrameType::ExtendFile,
            Frame::Fill { .. } => FrameType::Fill,
            Frame::OpenPipe { .. } => FrameType::OpenPipe,
            Frame::PipeTransfer { .. } => FrameType::PipeTransfer,
            Frame::PipeShutR { .. } => FrameType::PipeShutR,
            Frame::PipeShutW { .. } => FrameType::PipeShutW,
            Frame::Ack { .. } => FrameType::Ack,
            Frame::Restart { .. } => FrameType::Restart,
            Frame::Close { .. } => FrameType::Close,
        }
    }
}
