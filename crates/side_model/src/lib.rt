//! One side of a pair of Wayland proxies as a machine, in plain data: what is due next, what a call
//! does, and what the side's records tell of it.
#![tactic(auto)]

mod fault;
mod laws;
mod rows;

pub use fault::ProxyFault;
pub use laws::{
    calls_are_one, frames_are_judged, numbers_are_kept, records_follow, records_grow, rest_is_calm,
    rest_is_kept, row_is_in_order, run_is_part, stops_are_lawful, trail_keeps, wrong_calls,
};
pub use rows::{
    ack_frees, closes_behind, cut_and_resent, good_then_bad, lost_lines, wants_peer_counts,
};
