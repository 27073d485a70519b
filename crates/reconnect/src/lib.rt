//! What a side counts on the connections of a session, and how it judges by these counts and by its
//! ring the frames that it reads.
#![tactic(auto)]

mod counts;

pub use counts::Counts;

#[cfg(test)]
mod tests;
