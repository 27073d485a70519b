//! Sets of blocks, kept as the ascending list of their runs.
#![tactic(auto)]

mod blocks;
mod laws;
mod places;
mod run;
#[cfg(test)]
mod tests;

pub use blocks::Blocks;
pub use laws::{ends_by_blocks, has_hull, has_runs_of, runs_are_unique};
pub use run::Run;
