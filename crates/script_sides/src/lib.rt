//! One side of a replay: a proxy with its records beside its peer, and the copies of shared memory
//! that are loaded word by word as the lines of a script say.
//!
//! Each call of a [`ScriptSide`] is one move of a run as that side sees it. Behind each call all
//! that the proxy gives is with its peer.
#![tactic(auto)]

mod half_copy;
pub mod laws;
mod progress;
mod side;

pub use side::ScriptSide;
