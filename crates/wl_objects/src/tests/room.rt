//! How many objects there may be.

use super::{DOWN, UP, refuse, send};
use crate::Objects;
use std::test::Fail;
use wl_tables::Interface;
use wl_wire::ObjectFault;

/// With the display there are 65,536 entries; the next is refused, and a deleted one makes room for
/// one.
#[test]
fn most_objects(rt: HostRuntime) -> Result<(), Fail> {
    let mut objects = Objects::new(rt.alloc())?;
    for id in 2u32..65_537 {
        send(rt.alloc(), &mut objects, UP, 1, 0, &id.to_le_bytes())?;
    }
    refuse(
        rt.alloc(),
        &mut objects,
        UP,
        1,
        0,
        b"\x01\0\x01\0",
        ObjectFault::TooManyObjects,
    )?;
    assert!(rt; objects.live(65_537).is_none());
    assert!(rt; objects.live(65_536) == Some(Interface::WlCallback));
    send(rt.alloc(), &mut objects, DOWN, 1, 1, b"\x02\0\0\0")?;
    send(rt.alloc(), &mut objects, UP, 1, 0, b"\x01\0\x01\0")?;
    assert!(rt; objects.live(65_537) == Some(Interface::WlCallback));
    refuse(
        rt.alloc(),
        &mut objects,
        UP,
        1,
        0,
        b"\x02\0\0\0",
        ObjectFault::TooManyObjects,
    )
}
