//! The record of one side.

use crate::lines::LineList;
use half_model::{CopyList, FrameList};
use wl_wire::MessageList;
use wp_outside::Side;

/// What one side did, from the beginning on.
#[derive(Drop)]
pub struct TrailRecord {
    pub side: Side,
    /// The messages that it took from its peer.
    pub taken: MessageList,
    /// The frames that it made of them.
    pub made: FrameList,
    /// The copies of shared memory that went into its FILL frames.
    pub copies: CopyList,
    /// What it wrote and read on each connection.
    pub lines: LineList,
    /// How many frames of the other side it accepted.
    pub accepted: u64,
    /// How many of its own frames the other side is known to have accepted.
    pub acknowledged: u64,
    /// How many messages it gave to its peer.
    pub given: u64,
}
