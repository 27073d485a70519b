//! Shared memory of a Wayland client: its files of live words, and the buffers that lie in them.
#![tactic(auto)]

mod buffers;
mod file;
pub mod laws;
mod notes;
mod places;

pub use buffers::{Buffer, fits};
pub use file::FilePen;
pub use notes::{EyeList, FileEyes, FileEyesList, Note};
pub use places::WordPlace;

#[cfg(test)]
mod tests;
