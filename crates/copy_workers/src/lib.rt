//! Copies of live words: one at a time, by several threads that come back in order, or by a crew of
//! workers beside the thread that asks for them. Each job comes back once and whole.
#![tactic(auto)]

mod chiefs;
mod copies;
mod crews;
mod desks;
mod gates;
mod hands;
pub mod laws;
mod leavings;
mod notice_law;
mod notices;
mod ports;
mod ready;
mod threads;
mod views;
mod workers;

pub use chiefs::{Chief, ChiefSpent, NotYet};
pub use copies::{CopyDone, CopyJob, DoneList, JobList, WordList, copy_one};
pub use crews::open_crew;
pub use gates::{Gate, OpenGate};
pub use leavings::leftovers;
pub use threads::copy_all;
pub use workers::{Spent, SpentList, Worker, WorkerList};

#[cfg(test)]
mod tests;
