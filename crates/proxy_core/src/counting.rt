//! How many messages a frame of the other side has.

ghost use Rattle.std.specs.Prelude.{◌≡◌, ◌≤◌, length, Option, Some, None, option_map};
ghost use Rattle.wl_wire.specs.Wire.{cut};
ghost use Rattle.transfer_frames.specs.Grammar.{IsFrame};
ghost use Rattle.transfer_frames.specs.declared.frame.TheConstants.{LARGEST_FRAME};
ghost use Rattle.proxy_core.specs.Counting.{messages_in};

use transfer_frames::Frame;
use wl_wire::message_size;

/// How many messages a PROTOCOL frame has, and None of any other frame. Takes no memory.
pub(crate) fn messages_in(frame: &Frame) -> Option<u32>
    requires { IsFrame frame.now }
    ensures { result ≡ messages_in frame.now }
{
    match frame {
        Frame::Protocol { messages } => Some(count_messages(messages.as_slice())),
        _ => None,
    }
}

/// How many whole messages stand at the front of these bytes.
fn count_messages(bytes: &[u8]) -> u32
    requires { length bytes.now ≤ LARGEST_FRAME }
    ensures { result ≡ length (cut bytes.now) }
{
    let mut rest = bytes;
    let mut count = 0;
    'messages: loop {
        match message_size(rest) {
            Ok(Some(size)) => {
                rest = rest.split_at(size).1;
                count += 1;
            }
            Ok(None) => return count,
            Err(_) => return count,
        }
    }
}
