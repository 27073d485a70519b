//! Messages of both ways, as peers send them.

ghost use Rattle.std.specs.Prelude.{◌<◌, length};

use crate::{Objects, PassFault};
use std::alloc::Global;
use std::test::Fail;
use wl_tables::{Interface, Way};
use wl_wire::{Framer, Message, ObjectFault, WireFault};

const UP: Way = Way::Request;

const DOWN: Way = Way::Event;

/// The message of an object, an opcode and the bytes of arguments.
fn message(alloc: Global, object: u32, opcode: u16, body: &[u8]) -> Result<Message, Fail>
    requires { length body.now < 1000 }
{
    let mut framer = Framer::new(alloc);
    framer.feed(&object.to_le_bytes())?;
    framer.feed(&opcode.to_le_bytes())?;
    framer.feed(&(8 + body.len() as u16).to_le_bytes())?;
    framer.feed(body)?;
    match framer.next_message() {
        Ok(Some(it)) => Ok(it),
        _ => Err(Fail::new("no message")),
    }
}

/// Passes a message that is fine.
fn send(
    alloc: Global,
    objects: &mut Objects,
    way: Way,
    object: u32,
    opcode: u16,
    body: &[u8],
) -> Result<(), Fail>
    requires { length body.now < 1000 }
{
    let it = message(alloc, object, opcode, body)?;
    match objects.pass(way, &it) {
        Ok(passed) => {
            if passed.opcode == opcode {
                Ok(())
            } else {
                Err(Fail::new("another opcode"))
            }
        }
        Err(_) => Err(Fail::new("refused")),
    }
}

/// Passes a message that is refused with a cause.
fn refuse(
    alloc: Global,
    objects: &mut Objects,
    way: Way,
    object: u32,
    opcode: u16,
    body: &[u8],
    cause: ObjectFault,
) -> Result<(), Fail>
    requires { length body.now < 1000 }
{
    let it = message(alloc, object, opcode, body)?;
    match objects.pass(way, &it) {
        Ok(_) => Err(Fail::new("passed")),
        Err(fault) => {
            if fault == PassFault::Object(cause) {
                Ok(())
            } else {
                Err(Fail::new("another cause"))
            }
        }
    }
}

const GET_REGISTRY: &[u8] = b"\x02\0\0\0";

const BIND_COMPOSITOR: &[u8] = b"\x01\0\0\0\x0e\0\0\0wl_compositor\0\0\0\x06\0\0\0\x03\0\0\0";

const BIND_SURFACE: &[u8] = b"\x01\0\0\0\x0b\0\0\0wl_surface\0\0\x06\0\0\0\x04\0\0\0";

const BIND_SEAT: &[u8] = b"\x01\0\0\0\x08\0\0\0wl_seat\0\x07\0\0\0\x05\0\0\0";

const BIND_LONGER_NAME: &[u8] = b"\x01\0\0\0\x09\0\0\0wl_seat\0\0\0\0\0\x07\0\0\0\x05\0\0\0";

/// A client that has a registry as 2 and a compositor as 3.
fn client(alloc: Global) -> Result<Objects, Fail> {
    let mut objects = Objects::new(alloc)?;
    send(alloc, &mut objects, UP, 1, 1, GET_REGISTRY)?;
    send(alloc, &mut objects, UP, 2, 0, BIND_COMPOSITOR)?;
    Ok(objects)
}

#[test]
fn objects_are_made(rt: HostRuntime) -> Result<(), Fail> {
    let objects = client(rt.alloc())?;
    assert!(rt; objects.live(1) == Some(Interface::WlDisplay));
    assert!(rt; objects.live(2) == Some(Interface::WlRegistry));
    assert!(rt; objects.live(3) == Some(Interface::WlCompositor));
    assert!(rt; objects.live(4).is_none());
    Ok(())
}

/// A second tracker needs no arguments.
#[test]
fn objects_are_tracked_without_arguments(rt: HostRuntime) -> Result<(), Fail> {
    let alloc = rt.alloc();
    let mut objects = Objects::new(alloc)?;
    let registry = message(alloc, 1, 1, GET_REGISTRY)?;
    let compositor = message(alloc, 2, 0, BIND_COMPOSITOR)?;
    assert!(rt; objects.track(UP, &registry) == Ok(Interface::WlDisplay));
    assert!(rt; objects.track(UP, &compositor) == Ok(Interface::WlRegistry));
    assert!(rt; objects.live(3) == Some(Interface::WlCompositor));
    let again = PassFault::Object(ObjectFault::IdInUse);
    assert!(rt; objects.track(UP, &compositor) == Err(again));
    let opcode = PassFault::Object(ObjectFault::UnknownOpcode);
    assert!(rt; objects.track(DOWN, &message(alloc, 3, 0, b"")?) == Err(opcode));
    Ok(())
}

/// A destroyed id is free again only once it is deleted.
#[test]
fn id_reuse(rt: HostRuntime) -> Result<(), Fail> {
    let mut objects = client(rt.alloc())?;
    send(rt.alloc(), &mut objects, UP, 3, 0, b"\x05\0\0\0")?;
    send(rt.alloc(), &mut objects, UP, 5, 0, b"")?;
    assert!(rt; objects.live(5).is_none());
    refuse(
        rt.alloc(),
        &mut objects,
        UP,
        3,
        0,
        b"\x05\0\0\0",
        ObjectFault::IdInUse,
    )?;
    send(rt.alloc(), &mut objects, DOWN, 1, 1, b"\x05\0\0\0")?;
    send(rt.alloc(), &mut objects, UP, 3, 0, b"\x05\0\0\0")?;
    assert!(rt; objects.live(5) == Some(Interface::WlSurface));
    Ok(())
}

/// Events go on to a destroyed object, requests don't.
#[test]
fn destroyed_objects(rt: HostRuntime) -> Result<(), Fail> {
    let mut objects = client(rt.alloc())?;
    send(rt.alloc(), &mut objects, UP, 3, 0, b"\x05\0\0\0")?;
    send(rt.alloc(), &mut objects, UP, 5, 0, b"")?;
    send(rt.alloc(), &mut objects, DOWN, 5, 2, b"\x02\0\0\0")?;
    refuse(
        rt.alloc(),
        &mut objects,
        UP,
        5,
        6,
        b"",
        ObjectFault::UnknownObject,
    )?;
    send(rt.alloc(), &mut objects, DOWN, 1, 1, b"\x05\0\0\0")?;
    refuse(
        rt.alloc(),
        &mut objects,
        DOWN,
        5,
        2,
        b"\x02\0\0\0",
        ObjectFault::UnknownObject,
    )?;
    Ok(())
}

/// Each fault of a message's bytes, before any fault of its ids.
#[test]
fn bytes_at_fault(rt: HostRuntime) -> Result<(), Fail> {
    let mut objects = client(rt.alloc())?;
    refuse(
        rt.alloc(),
        &mut objects,
        UP,
        1,
        1,
        b"",
        ObjectFault::Wire(WireFault::ArgShort),
    )?;
    refuse(
        rt.alloc(),
        &mut objects,
        UP,
        1,
        1,
        b"\0\0\0\0\0\0\0\0",
        ObjectFault::Wire(WireFault::ArgLong),
    )?;
    refuse(
        rt.alloc(),
        &mut objects,
        UP,
        2,
        0,
        b"\x01\0\0\0\x04\0\0\0wl_s\x07\0\0\0\x03\0\0\0",
        ObjectFault::Wire(WireFault::StringNoNul),
    )?;
    refuse(
        rt.alloc(),
        &mut objects,
        UP,
        2,
        0,
        b"\x01\0\0\0\0\0\0\0\x07\0\0\0\x03\0\0\0",
        ObjectFault::Wire(WireFault::NullNotAllowed),
    )?;
    refuse(
        rt.alloc(),
        &mut objects,
        UP,
        9,
        99,
        b"",
        ObjectFault::UnknownObject,
    )?;
    refuse(
        rt.alloc(),
        &mut objects,
        UP,
        1,
        99,
        b"",
        ObjectFault::UnknownOpcode,
    )?;
    Ok(())
}

/// Ids at the edges of what a client makes.
#[test]
fn client_ids(rt: HostRuntime) -> Result<(), Fail> {
    let mut objects = client(rt.alloc())?;
    refuse(
        rt.alloc(),
        &mut objects,
        UP,
        3,
        0,
        b"\0\0\0\0",
        ObjectFault::IdRange,
    )?;
    refuse(
        rt.alloc(),
        &mut objects,
        UP,
        3,
        0,
        b"\0\0\0\xff",
        ObjectFault::IdRange,
    )?;
    send(rt.alloc(), &mut objects, UP, 3, 0, b"\xff\xff\xff\xfe")?;
    refuse(
        rt.alloc(),
        &mut objects,
        UP,
        3,
        0,
        b"\x01\0\0\0",
        ObjectFault::IdInUse,
    )?;
    assert!(rt; objects.live(0xfeff_ffff) == Some(Interface::WlSurface));
    Ok(())
}

/// What may be bound, and that a refused message changes nothing.
#[test]
fn bound_interfaces(rt: HostRuntime) -> Result<(), Fail> {
    let mut objects = client(rt.alloc())?;
    refuse(
        rt.alloc(),
        &mut objects,
        UP,
        2,
        0,
        BIND_SURFACE,
        ObjectFault::UnknownInterface,
    )?;
    assert!(rt; objects.live(4).is_none());
    refuse(
        rt.alloc(),
        &mut objects,
        UP,
        2,
        0,
        BIND_LONGER_NAME,
        ObjectFault::UnknownInterface,
    )?;
    send(rt.alloc(), &mut objects, UP, 2, 0, BIND_SEAT)?;
    refuse(
        rt.alloc(),
        &mut objects,
        UP,
        2,
        0,
        BIND_SEAT,
        ObjectFault::IdInUse,
    )?;
    assert!(rt; objects.live(5) == Some(Interface::WlSeat));
    Ok(())
}

const BIND_DEVICES: &[u8] = b"\x01\0\0\0\x17\0\0\0wl_data_device_manager\0\0\x03\0\0\0\x06\0\0\0";

/// A server's ids: their edge, and that one is free once its object is destroyed.
#[test]
fn server_ids(rt: HostRuntime) -> Result<(), Fail> {
    let mut objects = client(rt.alloc())?;
    send(rt.alloc(), &mut objects, UP, 2, 0, BIND_SEAT)?;
    send(rt.alloc(), &mut objects, UP, 2, 0, BIND_DEVICES)?;
    send(rt.alloc(), &mut objects, UP, 6, 1, b"\x07\0\0\0\x05\0\0\0")?;
    refuse(
        rt.alloc(),
        &mut objects,
        DOWN,
        7,
        0,
        b"\xff\xff\xff\xfe",
        ObjectFault::IdRange,
    )?;
    send(rt.alloc(), &mut objects, DOWN, 7, 0, b"\0\0\0\xff")?;
    refuse(
        rt.alloc(),
        &mut objects,
        DOWN,
        7,
        0,
        b"\0\0\0\xff",
        ObjectFault::IdInUse,
    )?;
    send(rt.alloc(), &mut objects, DOWN, 1, 1, b"\0\0\0\xff")?;
    assert!(rt; objects.live(0xff00_0000) == Some(Interface::WlDataOffer));
    send(rt.alloc(), &mut objects, UP, 0xff00_0000, 2, b"")?;
    send(rt.alloc(), &mut objects, DOWN, 7, 0, b"\0\0\0\xff")?;
    Ok(())
}

/// The display itself may be deleted, and made anew.
#[test]
fn deleted_display(rt: HostRuntime) -> Result<(), Fail> {
    let mut objects = client(rt.alloc())?;
    send(rt.alloc(), &mut objects, DOWN, 1, 1, b"\0\0\0\0")?;
    send(rt.alloc(), &mut objects, DOWN, 1, 1, b"\x09\0\0\0")?;
    send(rt.alloc(), &mut objects, DOWN, 1, 1, b"\x01\0\0\0")?;
    refuse(
        rt.alloc(),
        &mut objects,
        UP,
        1,
        0,
        b"\x09\0\0\0",
        ObjectFault::UnknownObject,
    )?;
    send(rt.alloc(), &mut objects, UP, 3, 0, b"\x01\0\0\0")?;
    assert!(rt; objects.live(1) == Some(Interface::WlSurface));
    Ok(())
}

mod registry;
mod room;
mod rows;
