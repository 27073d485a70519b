//! Which 64-byte blocks of a buffer's file a commit of its surface has to carry.
#![tactic(auto)]

mod area;
mod commits;
mod history;
mod image;
mod interval;
mod laws;
mod rect;
mod standing;
mod surface;
mod surfaces;
mod sweep;
#[cfg(test)]
mod tests;
mod transform;
mod view;

pub use history::BufferKey;
pub use laws::{
    due_bytes_are_filled, filled_blocks_are_due, filled_blocks_ascend, find_after, newest_suffice,
    sound_lasts,
};
pub use rect::Rect;
pub use standing::{Due, Standing};
pub use surfaces::Surfaces;
