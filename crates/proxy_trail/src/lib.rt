//! One proxy of the pair with its records.
#![tactic(auto)]

mod letting_go;
mod pair;
mod recording;
mod trail;

pub use letting_go::let_go;
pub use pair::{PairEnd, PairList, PairRecord};
pub use trail::Trail;
pub use trail_records::{LineList, LineRecord, TrailRecord, WayList};
