//! Frames from a stream of bytes that comes in pieces, and the listing of a whole one.
#![tactic(auto)]

mod listing;
mod reader;

pub use listing::{Listing, StreamEnd, list_frames, listing_is_unique};
pub use reader::FrameReader;
