//! That each copy which a proxy records stood in its peer's memory, once its receipt was given.
#![tactic(auto)]

mod laws;

pub use laws::{calls_leave_given, gave_is_copy, settled_has_stood};
