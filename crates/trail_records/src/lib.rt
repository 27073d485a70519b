//! The records of one side of a pair of Wayland proxies: what it took, made, copied, wrote, read and
//! gave, how messages passed, and their weight.
#![tactic(auto)]

mod book;
mod lines;
mod order;
mod trail;
mod unrecorded;
mod weighing;

pub use book::{Book, Lengths};
pub use lines::{LineList, LineRecord};
pub use order::WayList;
pub use trail::TrailRecord;
pub use unrecorded::Unrecorded;

#[cfg(test)]
mod tests;
