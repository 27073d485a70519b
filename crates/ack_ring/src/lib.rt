//! The ring of the frames that a side made and still keeps, since they may have to be sent again.
#![tactic(auto)]

mod ring;

pub use ring::Ring;

#[cfg(test)]
mod tests;
