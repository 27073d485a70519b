//! A message of each row of the table.

use super::{DOWN, UP, again};
use crate::read_message;
use std::alloc::{AllocError, Global};
use std::test::Fail;
use wl_tables::{Interface, Way, interface_name, message_name, signature};
use wl_wire::{ArgKind, Signature, Slot, Text};

static INTERFACES: [Interface; 25] = [
    Interface::WlDisplay,
    Interface::WlRegistry,
    Interface::WlCallback,
    Interface::WlCompositor,
    Interface::WlShm,
    Interface::WlShmPool,
    Interface::WlBuffer,
    Interface::WlSurface,
    Interface::WlRegion,
    Interface::WlSeat,
    Interface::WlPointer,
    Interface::WlKeyboard,
    Interface::WlTouch,
    Interface::WlOutput,
    Interface::WlSubcompositor,
    Interface::WlSubsurface,
    Interface::WlDataDeviceManager,
    Interface::WlDataDevice,
    Interface::WlDataSource,
    Interface::WlDataOffer,
    Interface::XdgWmBase,
    Interface::XdgPositioner,
    Interface::XdgSurface,
    Interface::XdgToplevel,
    Interface::XdgPopup,
];

/// The text of an argument for a place.
fn argument(slot: Slot) -> &'static [u8] {
    match (slot.kind, slot.null) {
        (ArgKind::Int, _) => b"-5",
        (ArgKind::Uint, _) => b"3000000000",
        (ArgKind::Fixed, _) => b"-300/256",
        (ArgKind::Str, false) => b"\"a, b\"",
        (ArgKind::Object, false) => b"@3",
        (ArgKind::Str, true) => b"null",
        (ArgKind::Object, true) => b"null",
        (ArgKind::NewId, _) => b"new @4278190080",
        (ArgKind::Bind, _) => b"\"wl_shm\" 1 new @4",
        (ArgKind::Array, _) => b"[01ff]",
        (ArgKind::Handle, _) => b"fd %-2",
    }
}

/// The text of a message with such arguments.
fn line_of(
    alloc: Global,
    interface: Interface,
    name: &str,
    places: &Signature,
) -> Result<Text, AllocError> {
    let mut line = Text::new(alloc);
    line.append(interface_name(interface).as_bytes())?;
    line.append(b"@9.")?;
    line.append(name.as_bytes())?;
    line.push(b'(')?;
    for i in 0..places.len() {
        if i > 0 {
            line.append(b", ")?;
        }
        line.append(argument(places.slot(i)))?;
    }
    line.push(b')')?;
    Ok(line)
}

/// Whether a line is read as a message of this opcode and printed, and its print read as the same
/// message.
fn is_read(alloc: Global, line: &Text, interface: Interface, way: Way, opcode: u16) -> bool {
    match again(alloc, line.as_slice(), way) {
        Ok((it, text)) => match read_message(alloc, text.as_slice(), way) {
            Ok(other) => text == *line
                && it == other
                && it.interface == interface
                && it.message.opcode() == opcode,
            Err(_) => false,
        },
        Err(_) => false,
    }
}

/// How many messages of a way an interface has, each of which is read and printed.
fn rows_of(alloc: Global, interface: Interface, way: Way) -> Result<u32, Fail> {
    let events = way == DOWN;
    let mut rows = 0u32;
    for opcode in 0..16u16 {
        match (
            signature(interface, events, opcode),
            message_name(interface, events, opcode),
        ) {
            (Some(places), Some(name)) => {
                let line = line_of(alloc, interface, name, &places)?;
                if !is_read(alloc, &line, interface, way, opcode) {
                    return Err(Fail::new(name));
                }
                rows = rows.saturating_add(1);
            }
            _ => return Ok(rows),
        }
    }
    Ok(rows)
}

#[test]
fn each_row_both_ways(rt: HostRuntime) -> Result<(), Fail> {
    let mut requests = 0u32;
    let mut events = 0u32;
    for interface in &INTERFACES {
        requests = requests.saturating_add(rows_of(rt.alloc(), *interface, UP)?);
        events = events.saturating_add(rows_of(rt.alloc(), *interface, DOWN)?);
    }
    assert_eq!(rt; requests, 90);
    assert_eq!(rt; events, 65);
    Ok(())
}
