//! The sending half of a proxy, from the items of the own peer to the frames of its messages.
#![tactic(auto)]

mod half;
mod inlet;

pub use half::SendHalf;
