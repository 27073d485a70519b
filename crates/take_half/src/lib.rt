//! The taking half of a proxy, from the frames of the other side to the items of the own peer, and
//! what a peer received.
#![tactic(auto)]

mod half;
mod passing;
mod peer_record;
mod pipe_flows;

pub use half::TakeHalf;
pub use peer_record::PeerRecord;
pub use pipe_flows::PipeFlow;
