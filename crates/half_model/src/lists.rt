//! The lists of a proxy's work, by the names that the crates above use.

use crate::notes::CopyRecord;
use plain_lists::PlainList;
use transfer_frames::Frame;

/// Words of shared memory.
pub type WordList = PlainList<u64>;

/// Frames, in the order in which they were made.
pub type FrameList = PlainList<Frame>;

/// Copies, in the order of the blocks that they fill.
pub type CopyList = PlainList<CopyRecord>;
