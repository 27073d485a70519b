//! A handle of one side's peer, and the seat that a table gives it.

use wp_outside::HandleKind;

/// A Wayland `fd` argument as it stands in this process: a number and what it leads to. The
/// application's own handles have positive numbers and the compositor's negative ones; a received
/// handle has its rid as number.
#[derive(Clone, Copy, Debug, PartialEq, Eq, Hash)]
pub struct Handle {
    /// The number.
    pub number: i32,
    /// What the handle leads to.
    pub kind: HandleKind,
}

/// Where a handle stands among those that a side passed.
#[derive(Clone, Copy, Debug, PartialEq, Eq)]
pub struct Seat {
    /// How many handles were passed for the first time before it.
    pub place: usize,
    /// Its rid.
    pub rid: i32,
    /// Whether it is yet to be passed for the first time.
    pub is_new: bool,
}
