//! A whole script.

use crate::steps::StepList;

/// A script that was read.
#[derive(Drop)]
pub struct Script {
    /// One step for each line that isn't skipped, in order.
    pub steps: StepList,
}
