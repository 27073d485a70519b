//! Failures that are planned.

use wp_outside::Side;

/// What goes wrong.
#[derive(Clone, Copy, Debug, PartialEq, Eq)]
pub enum Mishap {
    /// A dial fails.
    DialFails,
    /// A read fails.
    ReadFails,
    /// A write fails.
    WriteFails,
    /// A byte that is read is this one.
    Byte(u8),
}

/// One thing that goes wrong, and where.
#[derive(Clone, Copy, Debug, PartialEq, Eq)]
pub struct Plan {
    /// On which side.
    pub side: Side,
    /// On which connection. A dial fails whatever stands here.
    pub connection: u32,
    /// The number of the dial among this side's dials, of the read or the write among those on its
    /// line, or of the byte among those read there; each is counted from 0.
    pub at: u64,
    /// What goes wrong.
    pub what: Mishap,
}

/// Whether this side's dial of this number is to fail.
pub(crate) fn fails_dial(plans: &[Plan], side: Side, number: u64) -> bool {
    plans.iter().any(|plan| plan.what == Mishap::DialFails
        && plan.side == side
        && plan.at == number)
}

/// Whether this side's read or write of this number on this connection is to fail.
pub(crate) fn fails_call(plans: &[Plan], call: Plan) -> bool {
    plans.iter().any(|plan| *plan == call)
}

/// Replaces the bytes that are planned, among those read on a connection behind `before` others.
pub(crate) fn replace_bytes(
    plans: &[Plan],
    side: Side,
    connection: u32,
    before: u64,
    bytes: &mut [u8],
) {
    for plan in plans {
        if plan.side != side || plan.connection != connection {
            continue;
        }
        let Mishap::Byte(byte) = plan.what else {
            continue;
        };
        let Some(offset) = plan.at.checked_sub(before) else {
            continue;
        };
        if let Some(place) = bytes.get_mut(offset as usize) {
            *place = byte;
        }
    }
}
