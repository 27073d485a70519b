//! The table against the protocol's files, row by row.

mod core_cases;
mod shell_cases;

use crate::{
    Interface, handle_kind, interface_name, interface_of, max_version, message_name, new_interface,
    opcode_of, signature,
};
use core_cases::CORE;
use shell_cases::SHELL;
use wl_wire::{ArgKind, Signature, Slot};
use wp_outside::HandleKind;

/// A row: the interface, whether it is an event, the opcode, the name, a letter for each argument,
/// whether the message destroys its object, and the interface that it makes. Letters are the
/// arguments' initials, with capitals where null is allowed, `n` and `b` for new objects of a fixed
/// interface and of any, `h` for a file and `p` for a pipe's end.
struct Case(
    Interface,
    bool,
    u16,
    &'static str,
    &'static str,
    bool,
    Option<Interface>,
);

/// The letter of an argument.
fn letter(slot: Slot, kind: Option<HandleKind>) -> u8 {
    match (slot.kind, slot.null) {
        (ArgKind::Int, false) => b'i',
        (ArgKind::Uint, false) => b'u',
        (ArgKind::Fixed, false) => b'f',
        (ArgKind::Str, false) => b's',
        (ArgKind::Str, true) => b'S',
        (ArgKind::Object, false) => b'o',
        (ArgKind::Object, true) => b'O',
        (ArgKind::NewId, false) => b'n',
        (ArgKind::Bind, false) => b'b',
        (ArgKind::Array, false) => b'a',
        (ArgKind::Handle, false) => if kind == Some(HandleKind::File) {
            b'h'
        } else {
            b'p'
        },
        _ => b'?',
    }
}

fn has_letters(signature: &Signature, kind: Option<HandleKind>, letters: &[u8]) -> bool {
    if letters.len() != signature.len() {
        return false;
    }
    for i in 0..letters.len() {
        if letter(signature.slot(i), kind) != letters[i] {
            return false;
        }
    }
    true
}

/// Whether a letter of a handle stands there.
fn carries(letters: &[u8]) -> bool {
    for byte in letters {
        if *byte == b'h' || *byte == b'p' {
            return true;
        }
    }
    false
}

fn is_listed(case: &Case) -> bool {
    let Case(interface, events, opcode, name, letters, destroys, made) = *case;
    let kind = handle_kind(interface, events, opcode);
    match signature(interface, events, opcode) {
        Some(it) => it.destroys() == destroys
            && has_letters(&it, kind, letters.as_bytes())
            && kind.is_some() == carries(letters.as_bytes())
            && new_interface(interface, events, opcode) == made
            && message_name(interface, events, opcode) == Some(name)
            && opcode_of(interface, events, name.as_bytes()) == Some(opcode),
        None => false,
    }
}

#[test]
fn core_rows_are_listed(rt: HostRuntime) {
    for case in &CORE {
        assert!(rt; is_listed(case), "{}", case.3);
    }
}

#[test]
fn shell_rows_are_listed(rt: HostRuntime) {
    for case in &SHELL {
        assert!(rt; is_listed(case), "{}", case.3);
    }
}

/// Whether there is nothing at an opcode.
fn is_absent(interface: Interface, events: bool, opcode: u16) -> bool {
    signature(interface, events, opcode).is_none()
        && new_interface(interface, events, opcode).is_none()
        && handle_kind(interface, events, opcode).is_none()
        && message_name(interface, events, opcode).is_none()
}

/// The interfaces with how many requests and events each has, and its greatest version where it is
/// a global.
static INTERFACES: [(&str, Interface, u16, u16, Option<u32>); 25] = [
    ("wl_display", Interface::WlDisplay, 2, 2, None),
    ("wl_registry", Interface::WlRegistry, 1, 2, None),
    ("wl_callback", Interface::WlCallback, 0, 1, None),
    ("wl_compositor", Interface::WlCompositor, 2, 0, Some(6)),
    ("wl_shm", Interface::WlShm, 1, 1, Some(1)),
    ("wl_shm_pool", Interface::WlShmPool, 3, 0, None),
    ("wl_buffer", Interface::WlBuffer, 1, 1, None),
    ("wl_surface", Interface::WlSurface, 11, 4, None),
    ("wl_region", Interface::WlRegion, 3, 0, None),
    ("wl_seat", Interface::WlSeat, 4, 2, Some(7)),
    ("wl_pointer", Interface::WlPointer, 2, 9, None),
    ("wl_keyboard", Interface::WlKeyboard, 1, 6, None),
    ("wl_touch", Interface::WlTouch, 1, 7, None),
    ("wl_output", Interface::WlOutput, 1, 6, Some(4)),
    (
        "wl_subcompositor",
        Interface::WlSubcompositor,
        2,
        0,
        Some(1),
    ),
    ("wl_subsurface", Interface::WlSubsurface, 6, 0, None),
    (
        "wl_data_device_manager",
        Interface::WlDataDeviceManager,
        2,
        0,
        Some(3),
    ),
    ("wl_data_device", Interface::WlDataDevice, 3, 6, None),
    ("wl_data_source", Interface::WlDataSource, 3, 6, None),
    ("wl_data_offer", Interface::WlDataOffer, 5, 3, None),
    ("xdg_wm_base", Interface::XdgWmBase, 4, 1, Some(5)),
    ("xdg_positioner", Interface::XdgPositioner, 10, 0, None),
    ("xdg_surface", Interface::XdgSurface, 5, 1, None),
    ("xdg_toplevel", Interface::XdgToplevel, 14, 4, None),
    ("xdg_popup", Interface::XdgPopup, 3, 3, None),
];

#[test]
fn interfaces_are_listed(rt: HostRuntime) {
    for (name, interface, requests, events, version) in &INTERFACES {
        assert_eq!(rt; interface_name(*interface), *name);
        assert!(rt; interface_of(name.as_bytes()) == Some(*interface), "{name}");
        assert!(rt; is_absent(*interface, false, *requests), "{name}");
        assert!(rt; is_absent(*interface, true, *events), "{name}");
        assert!(rt; max_version(*interface) == *version, "{name}");
    }
}

#[test]
fn names_are_exact(rt: HostRuntime) {
    assert!(rt; interface_of(b"wl_sea").is_none());
    assert!(rt; interface_of(b"wl_seat\0").is_none());
    assert!(rt; interface_of(b"WL_SEAT").is_none());
    assert!(rt; opcode_of(Interface::WlSurface, false, b"dam").is_none());
    assert!(rt; opcode_of(Interface::WlSurface, false, b"damage_").is_none());
    assert!(rt; opcode_of(Interface::WlSurface, true, b"damage").is_none());
    assert!(rt; opcode_of(Interface::WlSurface, false, b"destroy!").is_none());
}
