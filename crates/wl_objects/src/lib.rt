//! The objects of a Wayland connection: what each message makes and destroys, and which globals are
//! shown.
#![tactic(auto)]

mod effects;
mod entry;
mod hidden;
mod laws;
mod objects;
mod passed;
mod reading;
mod registry_event;
mod tracker;
mod viewing;

pub use laws::{passed_by_the_table, shown_in_parts, shown_one_by_one, tracked_in_parts};
pub use objects::Objects;
pub use passed::{PassFault, Passed};

#[cfg(test)]
mod tests;
