//! Lines and dials as the crates above use them, through their traits.

mod parties;
mod plays;
mod streams;
mod tables;
