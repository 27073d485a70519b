//! A message as it is read from its text.

ghost use Rattle.std.specs.Prelude.{◌≡◌};
ghost use Rattle.wl_text.specs.declared.text_message.TextFault.TheVariants.{Memory};

use std::alloc::AllocError;
use wl_tables::Interface;
use wl_wire::{HandleNumbers, Message};

/// A message that was read from its text.
#[derive(Debug, Drop, PartialEq, Eq)]
pub struct TextMessage {
    /// The bytes of the message, with zeros as padding.
    pub message: Message,
    /// The interface that the text names.
    pub interface: Interface,
    /// The numbers of the handles that the message carries, in order.
    pub handles: HandleNumbers,
}

/// Why a line was not read.
#[derive(Clone, Copy, Debug, PartialEq, Eq)]
pub enum TextFault {
    /// It is the text of no message of that way.
    Form,
    /// Memory ran out.
    Memory,
}

impl From<AllocError> for TextFault {
    ghost from_gives = { λ _ fault. fault ≡ Memory };

    fn from(_error: AllocError) -> TextFault {
        TextFault::Memory
    }
}
