//! The numbers under which the two sides speak of handles: a rid for each handle that a side
//! passes, and the kind of each rid that the other side opened.
#![tactic(auto)]

mod handles;
pub mod laws;
mod tables;

pub use handles::{Handle, Seat};
pub use tables::Handles;

#[cfg(test)]
mod tests;
