//! Why a proxy has failed for good.

use half_model::{Limit, PeerCause};
use thiserror::Error;
use transfer_frames::FrameCause;

/// The fault with which a proxy has failed; it answers the same one from then on.
#[derive(Clone, Copy, Debug, PartialEq, Eq, Error)]
pub enum ProxyFault {
    /// The other side's frame behind so many bytes of a connection is refused. A place that a `u64`
    /// can't count stands still at its end.
    #[error("the frame at byte {place} of connection {connection} is refused: {cause:?}")]
    Frame {
        connection: u32,
        place: u64,
        cause: FrameCause,
    },
    /// The peer's message with this index, or an item that it put behind so many messages, is
    /// refused.
    #[error("message {index} of the peer is refused: {cause:?}")]
    Peer {
        index: u64,
        cause: PeerCause,
    },
    /// A limit would be passed.
    #[error("the limit {which:?} is reached")]
    Limit {
        which: Limit,
    },
    /// Memory ran out.
    #[error("out of memory")]
    Memory,
}
