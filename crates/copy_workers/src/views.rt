//! What each seat at a notice knows. No value of this type is made: it stands in contracts alone.

use crate::ready::ReadyJob;
use std::collections::LinkedList;

/// Whether the seat is the one that posts, the jobs that the notice names where the seat knows
/// them, and those that another seat knew which this one took in.
pub struct Known {
    pub posts: bool,
    pub jobs: Option<LinkedList<ReadyJob>>,
    pub heard: Option<LinkedList<ReadyJob>>,
}
