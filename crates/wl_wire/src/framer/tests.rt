use super::*;
use crate::faults::WireFault;
use std::process::Abort;
use std::test::Fail;

/// `wl_display.sync` with the new object 3, and `wl_surface.commit` of the object 7.
const SYNC: [u8; 12] = [1, 0, 0, 0, 0, 0, 12, 0, 3, 0, 0, 0];

const COMMIT: [u8; 8] = [7, 0, 0, 0, 6, 0, 8, 0];

/// The message that the reader gives now.
fn next(rt: &impl Abort, framer: &mut Framer) -> Message {
    framer
        .next_message()
        .ok()
        .flatten()
        .expect(rt, "a message stands at the front")
}

#[test]
fn two_messages_in_one_piece(rt: HostRuntime) -> Result<(), Fail> {
    let mut framer = Framer::new(rt.alloc());
    framer.feed(&SYNC)?;
    framer.feed(&COMMIT)?;
    let sync = next(&rt, &mut framer);
    assert_eq!(rt; (sync.object(), sync.opcode()), (1, 0));
    assert_eq!(rt; sync.bytes(), SYNC.as_slice());
    let commit = next(&rt, &mut framer);
    assert_eq!(rt; (commit.object(), commit.opcode()), (7, 6));
    assert_eq!(rt; commit.bytes(), COMMIT.as_slice());
    assert!(rt; commit.clone()? == commit);
    assert_eq!(rt; framer.next_message()?.is_none(), true);
    Ok(())
}

#[test]
fn pieces_of_one_byte(rt: HostRuntime) -> Result<(), Fail> {
    let mut framer = Framer::new(rt.alloc());
    for byte in SYNC {
        assert!(rt; !framer.stands());
        assert_eq!(rt; framer.next_message()?.is_none(), true);
        framer.feed(&[byte])?;
    }
    let sync = next(&rt, &mut framer);
    assert_eq!(rt; sync.bytes(), SYNC.as_slice());
    Ok(())
}

/// What a reader answers at a header of this size, before its last byte and with it.
fn answers_at(
    rt: &impl Abort,
    framer: &mut Framer,
    size: u16,
) -> Result<Option<Message>, MessageFault> {
    let [low, high] = size.to_le_bytes();
    framer
        .feed(&[1, 0, 0, 0, 9, 0, low])
        .ok()
        .expect(rt, "memory is there");
    assert_eq!(rt;
        framer
            .next_message()
            .ok()
            .expect(rt, "no fault yet")
            .is_none(),
        true
    );
    framer.feed(&[high]).ok().expect(rt, "memory is there");
    framer.next_message()
}

#[test]
fn sizes_at_fault(rt: HostRuntime) -> Result<(), Fail> {
    let cases = [
        (0, WireFault::SizeSmall),
        (4, WireFault::SizeSmall),
        (6, WireFault::SizeSmall),
        (7, WireFault::SizeSmall),
        (9, WireFault::SizeOdd),
        (10, WireFault::SizeOdd),
        (65_533, WireFault::SizeOdd),
    ];
    for (size, fault) in cases {
        let mut framer = Framer::new(rt.alloc());
        let first = answers_at(&rt, &mut framer, size).err();
        assert_eq!(rt; first, Some(MessageFault::Wire(fault)), "at size {size}");
        assert!(rt; framer.stands());
        framer.feed(&SYNC)?;
        let again = framer.next_message().err();
        assert_eq!(rt;
            again,
            Some(MessageFault::Wire(fault)),
            "again at size {size}"
        );
    }
    Ok(())
}

#[test]
fn largest_message(rt: HostRuntime) -> Result<(), Fail> {
    let mut framer = Framer::new(rt.alloc());
    let early = answers_at(&rt, &mut framer, 65_532)?;
    assert_eq!(rt; early.is_none(), true);
    let body = vec![in rt.alloc(); 5u8; 65_524]?;
    framer.feed(&body)?;
    let message = next(&rt, &mut framer);
    assert_eq!(rt; message.bytes().len(), 65_532);
    assert_eq!(rt; framer.next_message()?.is_none(), true);
    Ok(())
}
