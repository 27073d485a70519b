//! Lists and a byte queue, which contracts see as the list of their items, and the word for "is a
//! front of".
#![tactic(auto)]

mod byte_queue;
mod plain_list;

pub use byte_queue::ByteQueue;
pub use plain_list::{PlainList, append_reserved};

#[cfg(test)]
mod tests;
