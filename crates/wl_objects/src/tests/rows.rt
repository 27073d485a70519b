//! Every message of the table is built, read and tracked.

use crate::Objects;
use std::alloc::{AllocError, Global};
use std::test::Fail;
use wl_tables::{Interface, Way, interface_name, max_version, new_interface, signature};
use wl_wire::{Arg, ArgKind, ArgList, Bytes, Signature, Slot, args, build, fits_message};

/// Each interface behind those that make its objects, with the id that its object has here.
static PLACES: [(Interface, u32); 25] = [
    (Interface::WlDisplay, 1),
    (Interface::WlRegistry, 2),
    (Interface::WlCallback, 3),
    (Interface::WlCompositor, 4),
    (Interface::WlShm, 5),
    (Interface::WlShmPool, 6),
    (Interface::WlBuffer, 7),
    (Interface::WlSurface, 8),
    (Interface::WlRegion, 9),
    (Interface::WlSeat, 10),
    (Interface::WlPointer, 11),
    (Interface::WlKeyboard, 12),
    (Interface::WlTouch, 13),
    (Interface::WlOutput, 14),
    (Interface::WlSubcompositor, 15),
    (Interface::WlSubsurface, 16),
    (Interface::WlDataDeviceManager, 17),
    (Interface::WlDataDevice, 18),
    (Interface::WlDataSource, 19),
    (Interface::WlDataOffer, 0xff00_0000),
    (Interface::XdgWmBase, 20),
    (Interface::XdgPositioner, 21),
    (Interface::XdgSurface, 22),
    (Interface::XdgToplevel, 23),
    (Interface::XdgPopup, 24),
];

/// How many messages the table has.
const ROWS: u32 = 155;

/// What a message says where the table leaves it open.
#[derive(Clone, Copy)]
struct Said {
    /// What `bind` names.
    bound: Interface,
    /// The id of the new object.
    id: u32,
    /// Whether strings and objects are null where they may be.
    null: bool,
}

/// The id of an interface's object.
fn place_of(interface: Interface) -> u32 {
    for (other, id) in &PLACES {
        if *other == interface {
            return *id;
        }
    }
    0
}

fn way_of(events: bool) -> Way {
    if events { Way::Event } else { Way::Request }
}

/// An argument for a slot.
fn value(alloc: Global, slot: Slot, said: Said) -> Result<Arg, AllocError> {
    let is_null = slot.null && said.null;
    match slot.kind {
        ArgKind::Int => Ok(Arg::Int(-7)),
        ArgKind::Uint => Ok(Arg::Uint(0xffff_fffe)),
        ArgKind::Fixed => Ok(Arg::Fixed(-640)),
        ArgKind::Str => if is_null {
            Ok(Arg::NullStr)
        } else {
            Ok(Arg::Str(Bytes::from_slice(alloc, b"a text")?))
        },
        ArgKind::Object => Ok(Arg::Object(if is_null { 0 } else { 1 })),
        ArgKind::NewId => Ok(Arg::NewId(said.id)),
        ArgKind::Bind => {
            let interface = Bytes::from_slice(alloc, interface_name(said.bound).as_bytes())?;
            Ok(Arg::Bind {
                interface,
                version: 1,
                id: said.id,
            })
        }
        ArgKind::Array => Ok(Arg::Array(Bytes::from_slice(alloc, b"\x01\0\x02\0\x03")?)),
        ArgKind::Handle => Ok(Arg::Handle),
    }
}

/// An argument for each slot of a row.
fn values(alloc: Global, row: &Signature, said: Said) -> Result<ArgList, AllocError> {
    let mut list = ArgList::new(alloc);
    for i in 0..row.len() {
        list.push(value(alloc, row.slot(i), said)?)?;
    }
    Ok(list)
}

/// Builds the message of a row, reads it and passes it, and compares what is found with what was
/// said.
fn send(
    alloc: Global,
    objects: &mut Objects,
    interface: Interface,
    events: bool,
    opcode: u16,
    row: &Signature,
    said: Said,
) -> Result<(), Fail> {
    let list = values(alloc, row, said)?;
    if !fits_message(&list) {
        return Err(Fail::new("too long"));
    }
    let message = build(alloc, place_of(interface), opcode, &list)?;
    if args(alloc, row, &message)?.as_slice() != list.as_slice() {
        return Err(Fail::new("other arguments read"));
    }
    let passed = objects.pass(way_of(events), &message)?;
    if passed.args.as_slice() != list.as_slice() {
        return Err(Fail::new("other arguments passed"));
    }
    if passed.interface != interface || passed.opcode != opcode {
        return Err(Fail::new("another message passed"));
    }
    Ok(())
}

/// Makes the objects that the messages of an interface's object make, where they aren't there yet.
fn grow(
    alloc: Global,
    objects: &mut Objects,
    interface: Interface,
    events: bool,
) -> Result<(), Fail> {
    for opcode in 0..16 {
        match (
            signature(interface, events, opcode),
            new_interface(interface, events, opcode),
        ) {
            (Some(row), Some(made)) => {
                let said = Said {
                    bound: made,
                    id: place_of(made),
                    null: false,
                };
                if objects.live(said.id).is_none() {
                    send(alloc, objects, interface, events, opcode, &row, said)?;
                }
            }
            _ => (),
        }
    }
    Ok(())
}

/// Binds a global, if the interface is one.
fn bind(alloc: Global, objects: &mut Objects, interface: Interface) -> Result<(), Fail> {
    let said = Said {
        bound: interface,
        id: place_of(interface),
        null: false,
    };
    match (
        signature(Interface::WlRegistry, false, 0),
        max_version(interface),
    ) {
        (Some(row), Some(_)) => send(alloc, objects, Interface::WlRegistry, false, 0, &row, said),
        _ => Ok(()),
    }
}

/// A connection with an object of each interface, which messages made.
fn all_live(alloc: Global) -> Result<Objects, Fail> {
    let mut objects = Objects::new(alloc)?;
    for (interface, _) in &PLACES {
        bind(alloc, &mut objects, *interface)?;
        grow(alloc, &mut objects, *interface, false)?;
        grow(alloc, &mut objects, *interface, true)?;
    }
    Ok(objects)
}

/// The interface of the new object of a row.
fn made_by(interface: Interface, events: bool, opcode: u16, bound: Interface) -> Option<Interface> {
    if interface == Interface::WlRegistry && !events {
        Some(bound)
    } else {
        new_interface(interface, events, opcode)
    }
}

/// Passes the message of a row to its live object, and compares which objects live afterwards.
fn tracks(
    alloc: Global,
    interface: Interface,
    events: bool,
    opcode: u16,
    row: &Signature,
    null: bool,
) -> Result<(), Fail> {
    let mut objects = all_live(alloc)?;
    let said = Said {
        bound: Interface::WlOutput,
        id: if events { 0xff00_0001 } else { 25 },
        null,
    };
    send(alloc, &mut objects, interface, events, opcode, row, said)?;
    let left = if row.destroys() {
        None
    } else {
        Some(interface)
    };
    if objects.live(place_of(interface)) != left {
        return Err(Fail::new("another object left"));
    }
    if objects.live(said.id) != made_by(interface, events, opcode, said.bound) {
        return Err(Fail::new("another object made"));
    }
    Ok(())
}

/// Passes each message of an interface and a way, with values and with nulls, and tells how many
/// there are.
fn tracks_all(alloc: Global, interface: Interface, events: bool) -> Result<u16, Fail> {
    for opcode in 0..u16::MAX {
        match signature(interface, events, opcode) {
            Some(row) => {
                tracks(alloc, interface, events, opcode, &row, false)?;
                tracks(alloc, interface, events, opcode, &row, true)?;
            }
            None => return Ok(opcode),
        }
    }
    Ok(u16::MAX)
}

#[test]
fn each_interface_is_made(rt: HostRuntime) -> Result<(), Fail> {
    let objects = all_live(rt.alloc())?;
    for (interface, id) in &PLACES {
        assert!(rt;
            objects.live(*id) == Some(*interface),
            "{}",
            interface_name(*interface)
        );
    }
    Ok(())
}

#[test]
fn each_row_is_tracked(rt: HostRuntime) -> Result<(), Fail> {
    let mut rows: u32 = 0;
    for (interface, _) in &PLACES {
        for events in [false, true] {
            let some = tracks_all(rt.alloc(), *interface, events)?;
            rows = rows.saturating_add(u32::from(some));
        }
    }
    assert_eq!(rt; rows, ROWS);
    Ok(())
}
