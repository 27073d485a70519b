//! The report of a pair of Wayland proxies, told by the records of both: what the application and
//! the compositor sent and received, and what the proxies and their link did.
#![tactic(auto)]

mod flows;
mod heard;
mod hex_lines;
mod laws;
mod lines;
mod long;
mod meaning;
mod mirror;
mod mirrors;
mod options;
mod passing;
mod pipes;
mod reporting;
mod sums;

pub use laws::{accepted_is_told, files_and_pipes_are_meant};
pub use options::{Got, ReportOptions};
pub use reporting::report;
