//! What a proxy keeps of the connection that is up.

use crate::fronts::SmallFront;
use frame_stream::FrameReader;
use transfer_frames::Frame;

/// The frame that is being sent.
#[derive(Drop)]
pub(crate) enum Front {
    /// None.
    Nothing,
    /// RESTART or an ACK: its bytes that are left.
    Small(SmallFront),
    /// The frame of the ring before the next one, of which so many bytes are written. The ring keeps
    /// it until it is acknowledged, which it can't be before it is wholly sent.
    Kept { sent: usize },
}

/// The connection that is up. Which frames of the ring are wholly sent on it, and what the other
/// side's RESTART told, is kept with the counts of the session.
#[derive(Drop)]
pub(crate) struct Link {
    pub(crate) connection: u32,
    /// How many frames were accepted when it came up.
    pub(crate) received: u64,
    /// Whether the other side's RESTART was read.
    pub(crate) answered: bool,
    pub(crate) reader: FrameReader,
    pub(crate) front: Front,
    /// The index of the frame of the ring that is to be sent next.
    pub(crate) next: u64,
    /// How many frames the other side was told to be accepted.
    pub(crate) told: u64,
}

/// Where a frame stands: behind so many bytes of a connection.
#[derive(Clone, Copy, Debug, PartialEq, Eq)]
pub(crate) struct Place {
    pub(crate) connection: u32,
    pub(crate) place: u64,
}

/// A frame that was taken out of the bytes read.
#[derive(Drop)]
pub(crate) struct Came {
    pub(crate) frame: Frame,
    pub(crate) at: Place,
}
