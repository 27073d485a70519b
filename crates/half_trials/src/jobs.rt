//! What one line of the input asks for.

use crate::images::{images_made, images_taken};
use crate::sends::{images_sent, messages_sent};
use std::alloc::{AllocError, Global};

/// Work to be done so many times.
#[derive(Clone, Copy, Debug, PartialEq, Eq)]
pub enum Job {
    /// Pieces of so many messages of 24 bytes through a sending half.
    Messages { count: u32, times: u32 },
    /// Whole images through a sending half, so many commits each time.
    Pictures { count: u32, times: u32 },
    /// The frames of a whole image of so many bytes through a taking half.
    Images { bytes: u32, times: u32 },
    /// The same frames, which nobody takes.
    Untaken { bytes: u32, times: u32 },
}

impl Job {
    /// The job of a line, or None where it names none.
    pub fn read(line: &str) -> Option<Job> {
        let mut fields = line.split_whitespace();
        let name = fields.next()?;
        let size = number(fields.next()?)?;
        let times = number(fields.next()?)?;
        match name {
            "messages" => Some(Job::Messages { count: size, times }),
            "pictures" => Some(Job::Pictures { count: size, times }),
            "images" => Some(Job::Images { bytes: size, times }),
            "untaken" => Some(Job::Untaken { bytes: size, times }),
            _ => None,
        }
    }

    /// Does the work, and answers how many frames there were.
    pub fn frames(self, alloc: Global) -> Result<u64, AllocError> {
        match self {
            Job::Messages { count, times } => messages_sent(alloc, count, times),
            Job::Pictures { count, times } => images_sent(alloc, count.saturating_mul(times)),
            Job::Images { bytes, times } => images_taken(alloc, bytes, times),
            Job::Untaken { bytes, times } => images_made(alloc, bytes, times),
        }
    }
}

// The number that a field names.
fn number(field: &str) -> Option<u32> {
    field.parse().ok()
}
