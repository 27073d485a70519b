//! What holds of two sides of a pair of Wayland proxies by their records, where both agree on the
//! bytes of the link between them.
#![tactic(auto)]

mod differs;
mod laws;
mod rows;

pub use differs::Differs;
pub use laws::{
    each_heard, first_differs_is_one, heard_was_made, none_missing, orders_are_kept, pipes_reach,
    received_is_taken, received_prefixes, unspoiled, words_stood, wrong_pairs,
};
pub use rows::{one_received, refused_bind};
