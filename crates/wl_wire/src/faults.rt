//! What can be wrong with a message.

ghost use Rattle.std.specs.Prelude.{◌≡◌};
ghost use Rattle.wl_wire.specs.FaultNumbers.{wire_number, object_number};
ghost use Rattle.wl_wire.specs.declared.faults.MessageFault.TheVariants.{Wire, Memory};

use std::alloc::AllocError;
use thiserror::Error;

/// What is wrong with the bytes of a message, by the wire format of the Wayland protocol.
#[derive(Clone, Copy, Debug, PartialEq, Eq)]
pub enum WireFault {
    /// The header's size is below 8, so that it doesn't even cover the header.
    SizeSmall,
    /// The header's size is no multiple of four.
    SizeOdd,
    /// An argument passes the message's end.
    ArgShort,
    /// Bytes are left behind the last argument.
    ArgLong,
    /// The last counted byte of a string isn't 0.
    StringNoNul,
    /// A null string or a null object stands where the message allows none.
    NullNotAllowed,
}

impl WireFault {
    /// The fault's number, which names it where a number stands for it. Takes no memory.
    pub fn number(self) -> u8
        ensures { result ≡ wire_number self }
    {
        match self {
            WireFault::SizeSmall => 1,
            WireFault::SizeOdd => 2,
            WireFault::ArgShort => 3,
            WireFault::ArgLong => 4,
            WireFault::StringNoNul => 5,
            WireFault::NullNotAllowed => 6,
        }
    }
}

/// Why the tracking of objects refuses a message.
#[derive(Clone, Copy, Debug, PartialEq, Eq)]
pub enum ObjectFault {
    /// The message is for an object that isn't there.
    UnknownObject,
    /// The object's interface has no such message.
    UnknownOpcode,
    /// A new object's id is in use: a client's, until it is deleted; a server's, while it lives.
    IdInUse,
    /// A new object's id is 0 or outside the sender's range.
    IdRange,
    /// `wl_registry.bind` names no global that is carried.
    UnknownInterface,
    /// The message's own bytes are at fault.
    Wire(WireFault),
    /// The table of objects is full.
    TooManyObjects,
}

impl ObjectFault {
    /// The fault's number, which names it where a number stands for it: one number for all faults
    /// of the message's own bytes. Takes no memory.
    pub fn number(self) -> u8
        ensures { result ≡ object_number self }
    {
        match self {
            ObjectFault::UnknownObject => 1,
            ObjectFault::UnknownOpcode => 2,
            ObjectFault::IdInUse => 3,
            ObjectFault::IdRange => 4,
            ObjectFault::UnknownInterface => 5,
            ObjectFault::Wire(_) => 6,
            ObjectFault::TooManyObjects => 7,
        }
    }
}

/// Why no message is given, or why its arguments can't be read.
#[derive(Clone, Copy, Debug, PartialEq, Eq, Error)]
pub enum MessageFault {
    /// The bytes are at fault.
    #[error("the message's bytes are at fault: {0:?}")]
    Wire(WireFault),
    /// Memory ran out; nothing was changed.
    #[error("out of memory")]
    Memory,
}

impl From<WireFault> for MessageFault {
    ghost from_gives = { λ wire fault. fault ≡ Wire wire };

    fn from(fault: WireFault) -> MessageFault {
        MessageFault::Wire(fault)
    }
}

impl From<AllocError> for MessageFault {
    ghost from_gives = { λ _ fault. fault ≡ Memory };

    fn from(_error: AllocError) -> MessageFault {
        MessageFault::Memory
    }
}
