//! The two ends of the link between the proxies: lines that may pause, end or fail, and the dials
//! that make one after another; in memory, and with failures as planned.
#![tactic(auto)]

mod allowances;
mod dial_counts;
mod dial_pairs;
mod dials;
mod lanes;
mod link_counts;
mod links;
mod meetings;
mod memory_dials;
mod memory_lines;
mod memory_pairs;
mod new_ends;
mod pair_counts;
mod plan_dials;
mod plan_lines;
mod plan_pairs;
mod plans;

pub use allowances::Allowance;
pub use dial_counts::DialCounts;
pub use dial_pairs::{Cut, DialPair, LinkKind, OpenFault};
pub use dials::{Dial, Dialled};
pub use link_counts::LinkCounts;
pub use links::{Link, LinkRead, LinkWrite};
pub use memory_dials::MemoryDial;
pub use memory_lines::MemoryLine;
pub use memory_pairs::MemoryDials;
pub use pair_counts::{PairCounts, SideCounts};
pub use plan_dials::PlanDial;
pub use plan_lines::PlanLine;
pub use plan_pairs::PlanDials;
pub use plans::{Mishap, Plan};

#[cfg(test)]
mod tests;
