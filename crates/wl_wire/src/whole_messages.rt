//! Cuts bytes that are all there into messages.

ghost use Rattle.std.specs.Prelude.{◌≡◌, ◌≤◌, length, take, Ok, Some, IfOk};
ghost use Rattle.wl_wire.specs.Wire.{first, cut};

use crate::front::message_size;
use crate::lists::{Bytes, MessageList};
use crate::message::Message;
use std::alloc::{AllocError, Global};

/// The message at the front, which has so many bytes.
fn front_message(alloc: Global, bytes: &[u8], size: usize) -> Result<Message, AllocError>
    requires there { size ≤ length bytes.now }
    requires whole { first bytes.now ≡ Ok (Some (take size bytes.now)) }
    ensures { IfOk result (λ message. message ≡ take size bytes.now) }
{
    let front = Bytes::from_slice(alloc, bytes.split_at(size).0)?;
    Ok(Message::from_whole(front))
}

/// The whole messages at the front of the bytes, up to a rest or up to the first size at fault.
///
/// # Errors
/// Only where memory runs out.
pub fn cut_messages(alloc: Global, bytes: &[u8]) -> Result<MessageList, AllocError>
    ensures { IfOk result (λ list. list ≡ cut bytes.now) }
{
    let mut list = MessageList::new(alloc);
    let mut rest = bytes;
    'messages: loop {
        match message_size(rest) {
            Ok(Some(size)) => {
                let message = front_message(alloc, rest, size)?;
                list.push(message)?;
                rest = rest.split_at(size).1;
            }
            Ok(None) => return Ok(list),
            Err(_) => return Ok(list),
        }
    }
}
