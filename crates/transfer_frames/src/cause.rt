//! Why a frame is refused.

ghost use Rattle.std.specs.Prelude.{◌≡◌};
ghost use Rattle.transfer_frames.specs.Causes.{cause_number};
ghost use Rattle.transfer_frames.specs.declared.cause.DecodeFault.TheVariants.{Frame, Memory};

use std::alloc::AllocError;
use thiserror::Error;
use wl_wire::ObjectFault;

/// Why bytes are no frame, or why a frame is refused: by its first word, by the whole frame, by
/// what came before it on its connection, or by what it says.
#[derive(Clone, Copy, Debug, PartialEq, Eq)]
pub enum FrameCause {
    /// The size is below 4, so that it doesn't even cover the first word.
    SizeSmall,
    /// The size is above 1,048,576.
    SizeLarge,
    /// The type is above 18, the greatest one.
    UnknownType,
    /// The type, which is carried, is one of the seven below 19 that this link leaves out.
    LeftOut(u8),
    /// The body hasn't a length that its type allows.
    BodyLength,
    /// A byte of the padding isn't 0.
    Padding,
    /// The number of a handle is 0.
    RidZero,
    /// The range of a fill isn't one of whole blocks of 64 bytes, or not as long as its bytes.
    FillRange,
    /// The body isn't a row of whole Wayland messages.
    MessageCut,
    /// The first frame of a connection isn't RESTART.
    RestartMissing,
    /// A later frame of a connection is RESTART.
    RestartAgain,
    /// RESTART has another session's token.
    Token,
    /// RESTART has another connection's number.
    Connection,
    /// RESTART counts fewer received frames than were acknowledged.
    RestartBehind,
    /// RESTART counts more received frames than were made.
    RestartAhead,
    /// ACK counts fewer frames than were acknowledged.
    AckBehind,
    /// ACK counts more frames than were sent.
    AckAhead,
    /// A counted frame comes after CLOSE.
    AfterClose,
    /// As many frames were accepted as can be counted.
    CountSpent,
    /// A rid is opened that is open, or that isn't the sender's own.
    RidInUse,
    /// A rid was not opened as what the frame takes it for.
    RidUnknown,
    /// A file's new size is below its size.
    ExtendSmaller,
    /// A fill ends behind its file.
    FillOutside,
    /// A file is larger than any may be.
    FileTooLarge,
    /// A frame speaks of a pipe that was never opened, or comes from the wrong end of it.
    PipeUnknown,
    /// The end of a pipe is used that was shut before.
    PipeShut,
    /// The rids that were injected aren't those that the messages take.
    RidCount,
    /// The tracking of objects refuses a message of the frame.
    PeerMessage(ObjectFault),
    /// The files would be larger together than they may be.
    FilesTooLarge,
}

impl FrameCause {
    /// The cause's number.
    pub fn number(self) -> u8
        ensures { result ≡ cause_number self }
    {
        match self {
            FrameCause::SizeSmall => 1,
            FrameCause::SizeLarge => 2,
            FrameCause::UnknownType => 3,
            FrameCause::LeftOut(_) => 4,
            FrameCause::BodyLength => 5,
            FrameCause::Padding => 6,
            FrameCause::RidZero => 7,
            FrameCause::FillRange => 8,
            FrameCause::MessageCut => 9,
            FrameCause::RestartMissing => 20,
            FrameCause::RestartAgain => 21,
            FrameCause::Token => 22,
            FrameCause::Connection => 23,
            FrameCause::RestartBehind => 24,
            FrameCause::RestartAhead => 25,
            FrameCause::AckBehind => 26,
            FrameCause::AckAhead => 27,
            FrameCause::AfterClose => 28,
            FrameCause::CountSpent => 29,
            FrameCause::RidInUse => 30,
            FrameCause::RidUnknown => 31,
            FrameCause::ExtendSmaller => 32,
            FrameCause::FillOutside => 33,
            FrameCause::FileTooLarge => 34,
            FrameCause::PipeUnknown => 35,
            FrameCause::PipeShut => 36,
            FrameCause::RidCount => 37,
            FrameCause::PeerMessage(_) => 38,
            FrameCause::FilesTooLarge => 39,
        }
    }
}

/// Why no frame is given.
#[derive(Clone, Copy, Debug, PartialEq, Eq, Error)]
pub enum DecodeFault {
    /// The bytes are no frame.
    #[error("the bytes are no frame: {0:?}")]
    Frame(FrameCause),
    /// Memory ran out.
    #[error("out of memory")]
    Memory,
}

impl From<FrameCause> for DecodeFault {
    ghost from_gives = { λ cause fault. fault ≡ Frame cause };

    fn from(cause: FrameCause) -> DecodeFault {
        DecodeFault::Frame(cause)
    }
}

impl From<AllocError> for DecodeFault {
    ghost from_gives = { λ _ fault. fault ≡ Memory };

    fn from(_error: AllocError) -> DecodeFault {
        DecodeFault::Memory
    }
}
