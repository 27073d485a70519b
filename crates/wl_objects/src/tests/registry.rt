//! Which globals a client is shown.

ghost use Rattle.std.specs.Prelude.{◌<◌, length};

use super::{DOWN, GET_REGISTRY, UP, client, message, send};
use crate::Objects;
use std::alloc::Global;
use std::test::Fail;

/// Passes an event of the registry and compares what is shown of it.
fn shows(
    alloc: Global,
    objects: &mut Objects,
    opcode: u16,
    body: &[u8],
    shown: &[u8],
) -> Result<(), Fail>
    requires sent { length body.now < 1000 }
    requires seen { length shown.now < 1000 }
{
    send(alloc, objects, DOWN, 2, opcode, body)?;
    let it = message(alloc, 2, opcode, body)?;
    let want = message(alloc, 2, opcode, shown)?;
    match objects.visible_event(it)? {
        Some(seen) => {
            if seen.bytes() == want.bytes() {
                Ok(())
            } else {
                Err(Fail::new("other bytes"))
            }
        }
        None => Err(Fail::new("hidden")),
    }
}

/// Passes an event of the registry of which nothing is shown.
fn hides(alloc: Global, objects: &mut Objects, opcode: u16, body: &[u8]) -> Result<(), Fail>
    requires { length body.now < 1000 }
{
    send(alloc, objects, DOWN, 2, opcode, body)?;
    let it = message(alloc, 2, opcode, body)?;
    match objects.visible_event(it)? {
        Some(_) => Err(Fail::new("shown")),
        None => Ok(()),
    }
}

const GLOBAL_5: &[u8] = b"\x05\0\0\0\x14\0\0\0zwp_linux_dmabuf_v1\0\x04\0\0\0";

const GLOBAL_SURFACE_5: &[u8] = b"\x05\0\0\0\x0b\0\0\0wl_surface\0\0\x01\0\0\0";

const GLOBAL_SEAT_5: &[u8] = b"\x05\0\0\0\x08\0\0\0wl_seat\0\x07\0\0\0";

const GLOBAL_SEAT_6: &[u8] = b"\x06\0\0\0\x08\0\0\0wl_seat\0\x09\0\0\0";

const SHOWN_SEAT_6: &[u8] = b"\x06\0\0\0\x08\0\0\0wl_seat\0\x07\0\0\0";

const GLOBAL_OUTPUT_7: &[u8] = b"\x07\0\0\0\x0a\0\0\0wl_output\0\xaa\xbb\x09\0\0\0";

const SHOWN_OUTPUT_7: &[u8] = b"\x07\0\0\0\x0a\0\0\0wl_output\0\xaa\xbb\x04\0\0\0";

const REMOVE_5: &[u8] = b"\x05\0\0\0";

const REMOVE_6: &[u8] = b"\x06\0\0\0";

/// A global that isn't carried is hidden with its end; one that is carried is shown at its version.
#[test]
fn hidden_globals(rt: HostRuntime) -> Result<(), Fail> {
    let mut objects = client(rt.alloc())?;
    hides(rt.alloc(), &mut objects, 0, GLOBAL_5)?;
    hides(rt.alloc(), &mut objects, 1, REMOVE_5)?;
    shows(rt.alloc(), &mut objects, 0, GLOBAL_SEAT_6, SHOWN_SEAT_6)?;
    shows(rt.alloc(), &mut objects, 1, REMOVE_6, REMOVE_6)?;
    shows(rt.alloc(), &mut objects, 1, REMOVE_5, REMOVE_5)?;
    Ok(())
}

/// Lowering a version leaves all other bytes as they came, padding too.
#[test]
fn padding_stays(rt: HostRuntime) -> Result<(), Fail> {
    let mut objects = client(rt.alloc())?;
    shows(rt.alloc(), &mut objects, 0, GLOBAL_OUTPUT_7, SHOWN_OUTPUT_7)
}

/// A name is hidden, shown again, and gone.
#[test]
fn shown_again(rt: HostRuntime) -> Result<(), Fail> {
    let mut objects = client(rt.alloc())?;
    hides(rt.alloc(), &mut objects, 0, GLOBAL_SURFACE_5)?;
    shows(rt.alloc(), &mut objects, 0, GLOBAL_SEAT_5, GLOBAL_SEAT_5)?;
    shows(rt.alloc(), &mut objects, 1, REMOVE_5, REMOVE_5)?;
    Ok(())
}

/// What is hidden stays so where the registry is deleted and its id made anew.
#[test]
fn registry_made_anew(rt: HostRuntime) -> Result<(), Fail> {
    let mut objects = client(rt.alloc())?;
    hides(rt.alloc(), &mut objects, 0, GLOBAL_5)?;
    send(rt.alloc(), &mut objects, DOWN, 1, 1, b"\x02\0\0\0")?;
    send(rt.alloc(), &mut objects, UP, 1, 1, GET_REGISTRY)?;
    hides(rt.alloc(), &mut objects, 1, REMOVE_5)?;
    shows(rt.alloc(), &mut objects, 1, REMOVE_5, REMOVE_5)?;
    Ok(())
}
