//! Lines and dials of either kind as the crates above use them, through their traits.

mod parties;
mod plays;
mod streams;
mod tables;
