//! The pipes of a side: what its peer does at their ends becomes frames, and the other side's
//! frames become what its peer is given.
#![tactic(auto)]

mod faults;
pub mod laws;
mod pipes;

pub use faults::PipeFault;
pub use pipes::Pipes;

#[cfg(test)]
mod tests;
