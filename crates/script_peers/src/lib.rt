//! The peers of a replay: what the application and the compositor of a script do alone, beside
//! their proxies.
//!
//! A [`ScriptPeer`] does the lines of its own: it puts items on its wire, writes its files and
//! keeps what its proxy gives it. Its proxy takes the items from the wire, piece by piece.
#![tactic(auto)]

mod item_queue;
pub mod laws;
mod lines;
mod notable;
mod own_file;
mod own_files;
mod peer;

pub use item_queue::WireItem;
pub use peer::ScriptPeer;

#[cfg(test)]
mod tests;
