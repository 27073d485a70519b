//! The lists of the wire format, by the names that the crates above use.

use crate::arguments::Arg;
use crate::message::Message;
use plain_lists::PlainList;

/// A list of bytes.
pub type Bytes = PlainList<u8>;

/// A text as the list of its bytes, which need not be UTF-8.
pub type Text = PlainList<u8>;

/// The numbers by which handles are named.
pub type HandleNumbers = PlainList<i32>;

/// The arguments of a message.
pub type ArgList = PlainList<Arg>;

/// A list of messages, which contracts see as the list of their lists of bytes.
pub type MessageList = PlainList<Message>;
