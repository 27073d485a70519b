//! That the receipts which a proxy gives are those of its peer, and that a copy which is out is
//! awaited.
#![tactic(auto)]

mod laws;
mod owner;

pub use laws::{
    calls_keep_own, calls_leave_copies, copy_is_awaited, events_keep_own, events_leave_copies,
    lent_is_own, more_is_own,
};
pub use owner::Owner;

#[cfg(test)]
mod tests;
