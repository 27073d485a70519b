//! What a message is found to be, or why it is refused.

ghost use Rattle.std.specs.Prelude.{◌≡◌};
ghost use Rattle.wl_objects.specs.declared.passed.PassFault.TheVariants.{Object, Memory};

use std::alloc::AllocError;
use thiserror::Error;
use wl_tables::Interface;
use wl_wire::{ArgList, ObjectFault};

/// What a message that passed is found to be.
#[derive(Debug, Drop)]
pub struct Passed {
    /// The interface of the object that it is for.
    pub interface: Interface,
    /// Which of the interface's requests or events it is.
    pub opcode: u16,
    /// Its arguments.
    pub args: ArgList,
}

/// Why a message doesn't pass.
#[derive(Clone, Copy, Debug, PartialEq, Eq, Error)]
pub enum PassFault {
    /// The message breaks the rules of objects, or its bytes are at fault.
    #[error("the message is at fault: {0:?}")]
    Object(ObjectFault),
    /// Memory ran out; nothing was changed.
    #[error("out of memory")]
    Memory,
}

impl From<ObjectFault> for PassFault {
    ghost from_gives = { λ cause fault. fault ≡ Object cause };

    fn from(cause: ObjectFault) -> PassFault {
        PassFault::Object(cause)
    }
}

impl From<AllocError> for PassFault {
    ghost from_gives = { λ _ fault. fault ≡ Memory };

    fn from(_error: AllocError) -> PassFault {
        PassFault::Memory
    }
}
