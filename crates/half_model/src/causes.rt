//! Why a message of a peer, or a frame of the other side, is refused.

use thiserror::Error;
use transfer_frames::FrameCause;
use wl_wire::ObjectFault;

/// A bound of a session that would be passed.
#[derive(Clone, Copy, Debug, PartialEq, Eq)]
pub enum Limit {
    /// The told size of a file, 67,108,864 bytes.
    File,
    /// The sum of a side's told sizes, 268,435,456 bytes.
    Files,
    /// The weight of a side's records, 268,435,456.
    Trail,
    /// The number of a connection, 4,096.
    Connections,
    /// The bytes of an input, 16,777,216.
    Input,
    /// The lines of a script, 200,000.
    Lines,
}

/// Why a message or a pipe item of a peer is refused.
#[derive(Clone, Copy, Debug, PartialEq, Eq)]
pub enum PeerCause {
    /// Tracking refuses the message.
    Object(ObjectFault),
    /// The message carries a handle, and none waits.
    HandleMissing,
    /// The oldest waiting handle is of another kind than the message carries, or isn't the peer's
    /// own.
    HandleKind,
    /// Blocks are to be filled, and no note waits, or its eyes don't cover them.
    NoteMissing,
    /// A pipe item names no pipe whose end the peer holds, or an end that it closed.
    PipeUnknown,
}

/// Why a sending half has failed for good.
#[derive(Clone, Copy, Debug, PartialEq, Eq, Error)]
pub enum HalfFault {
    /// The peer's message with this index is refused.
    #[error("message {index} of the peer is refused: {cause:?}")]
    Peer {
        /// How many messages were taken before.
        index: u64,
        cause: PeerCause,
    },
    /// A limit would be passed.
    #[error("the limit {which:?} is reached")]
    Limit {
        which: Limit,
    },
    /// Memory ran out.
    #[error("out of memory")]
    Memory,
}

/// Why a taking half has failed for good.
#[derive(Clone, Copy, Debug, PartialEq, Eq, Error)]
pub enum TakeFault {
    /// What a frame says is refused.
    #[error("the frame is refused: {0:?}")]
    Frame(FrameCause),
    /// Memory ran out.
    #[error("out of memory")]
    Memory,
}
