//! What a proxy notes of its work, for its records.

use crate::lists::{CopyList, FrameList, WordList};
use wl_wire::Message;

/// One copy of words of shared memory, as it went into a FILL frame.
#[derive(Debug, Drop)]
pub struct CopyRecord {
    /// The peer's own number for the file.
    pub file: i32,
    /// Which of the file's segments.
    pub segment: u32,
    /// The first word that was copied, in that segment.
    pub first: u32,
    /// The words.
    pub words: WordList,
    /// The count of writes to the segment when its note was made.
    pub low: u64,
    /// The count of writes to the segment when the copy was finished.
    pub high: u64,
}

/// What is noted, in order.
#[derive(Debug, Drop)]
pub enum Noted {
    /// A message of the own peer was taken.
    Taken(Message),
    /// A PROTOCOL frame of the other side with so many messages was accepted.
    Received { messages: u32 },
    /// The frames of a message, a pipe item or CLOSE were made, with the copies that went into
    /// them.
    Group { frames: FrameList, copies: CopyList },
}
