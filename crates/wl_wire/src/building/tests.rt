use super::*;
use crate::faults::{MessageFault, WireFault};
use crate::lengths::fits_message;
use crate::reading::args;
use crate::signature::{ArgKind, Signature, Slot};
use crate::whole_messages::cut_messages;
use std::process::Abort;
use std::test::Fail;

/// `wl_registry.bind` of `wl_shm`, version 1, as object 3.
const BIND: [u8; 32] = [
    2, 0, 0, 0, 0, 0, 32, 0, 1, 0, 0, 0, 7, 0, 0, 0, b'w', b'l', b'_', b's', b'h', b'm', 0, 0, 1,
    0, 0, 0, 3, 0, 0, 0,
];

const fn place(kind: ArgKind, null: bool) -> Slot {
    Slot { kind, null }
}

fn message_of(rt: &impl Abort, alloc: Global, bytes: &[u8]) -> Message {
    let list = cut_messages(alloc, bytes)
        .ok()
        .expect(rt, "memory is there");
    list.into_vec().pop().expect(rt, "a message stands there")
}

#[test]
fn bind_is_read(rt: HostRuntime) -> Result<(), Fail> {
    let bind = message_of(&rt, rt.alloc(), &BIND);
    let signature = Signature::new(false)
        .with(place(ArgKind::Uint, false))
        .with(place(ArgKind::Bind, false));
    let list = args(rt.alloc(), &signature, &bind)?;
    let interface = Bytes::from_slice(rt.alloc(), b"wl_shm")?;
    let wanted = [
        Arg::Uint(1),
        Arg::Bind {
            interface,
            version: 1,
            id: 3,
        },
    ];
    assert_eq!(rt; list.as_slice() == wanted.as_slice(), true);
    Ok(())
}

#[test]
fn bind_is_built(rt: HostRuntime) -> Result<(), Fail> {
    let interface = Bytes::from_slice(rt.alloc(), b"wl_shm")?;
    let mut list = ArgList::new(rt.alloc());
    list.push(Arg::Uint(1))?;
    list.push(Arg::Bind {
        interface,
        version: 1,
        id: 3,
    })?;
    assert!(rt; fits_message(&list));
    let bind = build(rt.alloc(), 2, 0, &list)?;
    assert_eq!(rt; bind.bytes(), BIND.as_slice());
    Ok(())
}

/// How many arguments the message has, or its first fault: an object that may not be null, and then a string.
fn object_and_string(
    rt: &impl Abort,
    alloc: Global,
    message: &[u8],
) -> Result<usize, MessageFault> {
    let signature = Signature::new(false)
        .with(place(ArgKind::Object, false))
        .with(place(ArgKind::Str, false));
    let list = args(alloc, &signature, &message_of(rt, alloc, message))?;
    Ok(list.len())
}

#[test]
fn first_fault_of_the_arguments(rt: HostRuntime) {
    let good = [
        1, 0, 0, 0, 0, 0, 20, 0, 5, 0, 0, 0, 2, 0, 0, 0, b'a', 0, 0, 0,
    ];
    assert_eq!(rt; object_and_string(&rt, rt.alloc(), &good), Ok(2));
    let cases: [(&[u8], WireFault); 6] = [
        (&[1, 0, 0, 0, 0, 0, 8, 0], WireFault::ArgShort),
        (
            &[1, 0, 0, 0, 0, 0, 16, 0, 0, 0, 0, 0, 9, 0, 0, 0],
            WireFault::NullNotAllowed,
        ),
        (
            &[1, 0, 0, 0, 0, 0, 16, 0, 5, 0, 0, 0, 0, 0, 0, 0],
            WireFault::NullNotAllowed,
        ),
        (
            &[1, 0, 0, 0, 0, 0, 16, 0, 5, 0, 0, 0, 9, 0, 0, 0],
            WireFault::ArgShort,
        ),
        (
            &[
                1, 0, 0, 0, 0, 0, 20, 0, 5, 0, 0, 0, 2, 0, 0, 0, b'a', b'b', 0, 0,
            ],
            WireFault::StringNoNul,
        ),
        (
            &[
                1, 0, 0, 0, 0, 0, 24, 0, 5, 0, 0, 0, 2, 0, 0, 0, b'a', 0, 0, 0, 0, 0, 0, 0,
            ],
            WireFault::ArgLong,
        ),
    ];
    for (message, fault) in cases {
        assert_eq!(rt;
            object_and_string(&rt, rt.alloc(), message),
            Err(MessageFault::Wire(fault))
        );
    }
}
