//! The files of the other side, as this side keeps them: the sizes by which their frames are
//! tested, and their bytes.
#![tactic(auto)]

mod checks;
mod faults;
pub mod laws;
mod mirror;
mod mirrors;
mod sizes;

pub use faults::MirrorFault;
pub use mirrors::Mirrors;
pub use sizes::Sizes;

#[cfg(test)]
mod tests;
