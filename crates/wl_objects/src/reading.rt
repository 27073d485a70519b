//! What a message says by the table.

ghost use Rattle.std.specs.Prelude.{◌≡◌, drop};
ghost use Rattle.wl_wire.specs.ArgFaults.{args_fault};
ghost use Rattle.wl_wire.specs.Wire.{opcode_of};
ghost use Rattle.wl_objects.specs.Tracking.{read_by, read_row, reading};

use crate::tracker::Tracker;
use wl_tables::{Interface, Way, signature};
use wl_wire::{ArgViews, Message, ObjectFault, Signature, scan};

/// What a message says: the interface of its object, which of its messages it is, its arguments
/// where they stand in its bytes, and whether it destroys its object.
#[derive(Drop)]
pub(crate) struct Reading<'a> {
    pub(crate) interface: Interface,
    pub(crate) opcode: u16,
    pub(crate) args: ArgViews<'a>,
    pub(crate) destroys: bool,
}

/// Reads a message.
pub(crate) fn read_message<'a>(
    objects: &Tracker,
    way: Way,
    m: &'a Message,
) -> Result<Reading<'a>, ObjectFault>
    ensures { result ≡ reading way objects.now m.now }
{
    match objects.addressed(way, m.object()) {
        Some(entry) => read_row(entry.interface, way, m),
        None => Err(ObjectFault::UnknownObject),
    }
}

/// Reads a message of an object of this interface.
fn read_row<'a>(interface: Interface, way: Way, m: &'a Message) -> Result<Reading<'a>, ObjectFault>
    ensures { result ≡ read_row interface way m.now }
{
    match signature(interface, way.is_event(), m.opcode()) {
        Some(row) => read_args(interface, &row, m),
        None => Err(ObjectFault::UnknownOpcode),
    }
}

/// Reads the arguments of a message by its row.
fn read_args<'a>(
    interface: Interface,
    row: &Signature,
    m: &'a Message,
) -> Result<Reading<'a>, ObjectFault>
    ensures { result ≡ read_by interface (opcode_of m.now) (drop 8 m.now) row.now
        (args_fault row.now.slots (drop 8 m.now)) }
{
    match scan(row, m) {
        Ok(args) => Ok(Reading {
            interface,
            opcode: m.opcode(),
            args,
            destroys: row.destroys(),
        }),
        Err(fault) => Err(ObjectFault::Wire(fault)),
    }
}
