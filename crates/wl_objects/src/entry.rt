//! What stands at an id.

use wl_tables::Interface;

/// What an id stands for.
#[derive(Clone, Copy)]
pub(crate) struct Entry {
    pub(crate) interface: Interface,
    /// Whether it lives, or was destroyed.
    pub(crate) live: bool,
}

/// An object that a message makes.
#[derive(Clone, Copy)]
pub(crate) struct NewObject {
    pub(crate) id: u32,
    /// None where `bind` names no global that may be bound.
    pub(crate) interface: Option<Interface>,
}
