//! Words of shared memory that one thread writes while others load them, with no lock.
//!
//! A pool has one [`Pen`], which alone writes its words. A note of the pen is an [`Eye`]: it loads
//! words on any thread, and knows how many writes had been made when the note was. A finished eye
//! is a [`Receipt`]. Once the pen has settled a receipt, it is known of each word loaded that this
//! value stood there after some number of writes, from the count at the note to the count at the
//! finish.
#![tactic(auto)]

mod desk;
mod eye;
mod law;
pub mod laws;
mod pen;
mod receipt;
mod views;

pub use eye::Eye;
pub use pen::{Pen, Stranger, WritesSpent, new_pool};
pub use receipt::Receipt;

#[cfg(test)]
mod tests;
