//! What a proxy meets outside itself: where bytes come from and go to, and the link between the two
//! sides, with forms in memory and thin adapters over the standard library.
#![tactic(auto)]

mod copying;
mod kinds;
mod line_stores;
mod link_stores;
mod memory_sinks;
mod memory_sources;
mod pipe_items;
mod plans;
mod rooms;
mod sinks;
mod sources;
mod std_adapters;
mod stored_lanes;
mod stored_lines;

pub use kinds::{Direction, HandleKind, Side};
pub use line_stores::LineStore;
pub use link_stores::LinkStore;
pub use memory_sinks::MemorySink;
pub use memory_sources::{CleanSource, MemorySource};
pub use pipe_items::PipeItem;
pub use sinks::{Failed, Sink};
pub use sources::{Source, Taken};
pub use std_adapters::{StdSink, StdSource};

#[cfg(test)]
mod tests;
