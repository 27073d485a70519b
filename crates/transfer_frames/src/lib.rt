//! The frames of the link between the two proxies: their grammar, and the calls that write and read
//! them.
#![tactic(auto)]

mod cause;
mod frame;
mod front;
mod kinds;
mod laws;
mod line;
mod numbers;
mod reading;
mod rules;
mod small;
mod writing;

pub use cause::{DecodeFault, FrameCause};
pub use frame::{Frame, FrameRole, LARGEST_FRAME, LONGEST_TRANSFER, part_of};
pub use front::first_frame;
pub use laws::{front_is_decided, length_is_bounded, message_fits, read_is_spelled, row_is_unique};
pub use line::{append_hex, frame_line, with_frame_line};
pub use reading::decode;
pub use small::put_small;
pub use writing::{append_frame, encode, spelled_len};

#[cfg(test)]
mod tests;
