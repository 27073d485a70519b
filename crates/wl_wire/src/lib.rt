//! Bytes of the Wayland protocol: lists of bytes, messages, and the reader that cuts a stream into
//! messages.
#![tactic(auto)]

mod arg_laws;
mod arg_sizes;
mod arg_views;
mod arguments;
mod building;
mod faults;
mod framer;
mod front;
mod laws;
mod lengths;
mod lists;
mod message;
mod reading;
mod scanning;
mod signature;
mod whole_messages;

pub use arg_laws::{args_are_unique, built_is_read, fault_is_told, read_is_built};
pub use arg_views::ArgView;
pub use arguments::Arg;
pub use building::build;
pub use faults::{MessageFault, ObjectFault, WireFault};
pub use framer::Framer;
pub use front::{all_messages, message_size};
pub use laws::{cut_by_parts, cut_is_unique, fault_stays, front_is_decided, joined_is_cut};
pub use lengths::fits_message;
pub use lists::{ArgList, Bytes, HandleNumbers, MessageList, Text};
pub use message::{LONGEST_MESSAGE, Message};
pub use reading::args;
pub use scanning::{ArgViews, scan};
pub use signature::{ArgKind, Signature, Slot};
pub use whole_messages::cut_messages;
