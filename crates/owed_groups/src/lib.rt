//! What is owed to the other side for a message: the copies that its blocks wait for, and its frames once
//! they are back.
#![tactic(auto)]

mod copies;
mod eyes;
mod jobs;
mod outbox;
mod owed;
mod owing;
mod pieces;
mod slot;
mod stage;

pub use copies::Copies;
pub use outbox::Outbox;
pub use owed::OwedGroup;
pub use owing::{Owing, owing_for};
