//! The frames, and the part that each has on its connection.

ghost use Rattle.std.specs.Prelude.{◌≡◌};
ghost use Rattle.transfer_frames.specs.Grammar.{role};

use std::alloc::AllocError;
use wl_wire::{Bytes, HandleNumbers};

/// The greatest size of a frame in bytes: its first word and its body.
pub const LARGEST_FRAME: u32 = 1_048_576;

/// The most bytes of a pipe that one frame has.
pub const LONGEST_TRANSFER: usize = 65_536;

/// A frame of the link. A rid is the number of a handle on the link: above 0 where the near side
/// passed it first, below 0 where the far side did.
#[derive(Debug, Drop)]
pub enum Frame {
    /// One or more whole Wayland messages.
    Protocol {
        messages: Bytes,
    },
    /// The rids of handles that the next messages carry, one or more.
    Inject {
        rids: HandleNumbers,
    },
    /// A file is passed for the first time; its size in bytes.
    OpenFile {
        rid: i32,
        size: u32,
    },
    /// A file has grown; its new size in bytes.
    ExtendFile {
        rid: i32,
        size: u32,
    },
    /// The bytes of a file from `start` to before `end`, whole blocks of 64 bytes.
    Fill {
        rid: i32,
        start: u32,
        end: u32,
        bytes: Bytes,
    },
    /// The write end of a pipe is passed for the first time.
    OpenPipe {
        rid: i32,
    },
    /// 1 to 65,536 bytes that were written to a pipe.
    PipeTransfer {
        rid: i32,
        bytes: Bytes,
    },
    /// The reading end of a pipe was closed.
    PipeShutR {
        rid: i32,
    },
    /// The write end of a pipe was closed.
    PipeShutW {
        rid: i32,
    },
    /// How many counted frames were accepted.
    Ack {
        count: u64,
    },
    /// The greeting of a connection: the session's token, the connection's number, and how many
    /// counted frames were accepted before.
    Restart {
        token: [u8; 16],
        connection: u32,
        received: u64,
    },
    /// The sender makes no counted frame after this one.
    Close {
        reason: u32,
    },
}

impl Clone for Frame {
    ghost is_clone = { λ frame copy. copy ≡ frame };

    fn clone(&self) -> Result<Frame, AllocError> {
        Ok(match self {
            Frame::Protocol { messages } => Frame::Protocol {
                messages: messages.clone()?,
            },
            Frame::Inject { rids } => Frame::Inject {
                rids: rids.clone()?,
            },
            Frame::OpenFile { rid, size } => Frame::OpenFile {
                rid: *rid,
                size: *size,
            },
            Frame::ExtendFile { rid, size } => Frame::ExtendFile {
                rid: *rid,
                size: *size,
            },
            Frame::Fill {
                rid,
                start,
                end,
                bytes,
            } => Frame::Fill {
                rid: *rid,
                start: *start,
                end: *end,
                bytes: bytes.clone()?,
            },
            Frame::OpenPipe { rid } => Frame::OpenPipe { rid: *rid },
            Frame::PipeTransfer { rid, bytes } => Frame::PipeTransfer {
                rid: *rid,
                bytes: bytes.clone()?,
            },
            Frame::PipeShutR { rid } => Frame::PipeShutR { rid: *rid },
            Frame::PipeShutW { rid } => Frame::PipeShutW { rid: *rid },
            Frame::Ack { count } => Frame::Ack { count: *count },
            Frame::Restart {
                token,
                connection,
                received,
            } => Frame::Restart {
                token: *token,
                connection: *connection,
                received: *received,
            },
            Frame::Close { reason } => Frame::Close { reason: *reason },
        })
    }
}

/// What part a frame has on its connection.
#[derive(Clone, Copy, Debug, PartialEq, Eq)]
pub enum FrameRole {
    /// It is kept until it is acknowledged; `closes` where it is CLOSE, the last such frame.
    Counted {
        closes: bool,
    },
    /// It tells how many counted frames were accepted.
    Tells {
        count: u64,
    },
    /// It greets.
    Greets {
        token: [u8; 16],
        connection: u32,
        received: u64,
    },
}

/// The part that a frame has on its connection.
pub fn part_of(frame: &Frame) -> FrameRole
    ensures { result ≡ role frame.now }
{
    match frame {
        Frame::Ack { count } => FrameRole::Tells { count: *count },
        Frame::Restart {
            token,
            connection,
            received,
        } => FrameRole::Greets {
            token: *token,
            connection: *connection,
            received: *received,
        },
        Frame::Close { .. } => FrameRole::Counted { closes: true },
        _ => FrameRole::Counted { closes: false },
    }
}
