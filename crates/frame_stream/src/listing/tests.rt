use super::*;
use std::test::*;

/// Whether the stream of this hexadecimal text has these lines and this end.
fn lists(alloc: Global, stream: &str, lines: &str, stream_end: StreamEnd) -> bool {
    match hex::decode(alloc, stream) {
        Ok(bytes) => match list_frames(alloc, bytes.as_slice()) {
            Ok(listing) => {
                listing.lines.as_slice() == lines.as_bytes() && listing.stream_end == stream_end
            }
            Err(_) => false,
        },
        Err(_) => false,
    }
}

/// Whether the stream of this hexadecimal text has no frame, and this fault at its front.
fn is_fault(alloc: Global, stream: &str, cause: FrameCause) -> bool {
    lists(alloc, stream, "", StreamEnd::Fault { place: 0, cause })
}

#[test]
fn frames_command(rt: HostRuntime) {
    let stream = "900100000500000000000000000200000100000000000c00020000001104";
    let lines = "0 ACK 5\n12 PROTOCOL 0100000000000c0002000000\n";
    assert!(rt; lists(rt.alloc(), stream, lines, StreamEnd::Rest(2)));
    let lines = "0 PIPE_TRANSFER 1 61\n";
    assert!(rt;
        lists(
            rt.alloc(),
            "2a0100000100000061000000",
            lines,
            StreamEnd::Rest(0)
        )
    );
    assert!(rt; is_fault(rt.alloc(), "2a0100000100000061000001", FrameCause::Padding));
    assert!(rt; is_fault(rt.alloc(), "84000000", FrameCause::LeftOut(4)));
    assert!(rt; is_fault(rt.alloc(), "93000000", FrameCause::UnknownType));
    assert!(rt; is_fault(rt.alloc(), "60000000", FrameCause::SizeSmall));
}

#[test]
fn fault_behind_frames(rt: HostRuntime) {
    let stream = "9001000005000000000000008400000090010000";
    let stream_end = StreamEnd::Fault {
        place: 12,
        cause: FrameCause::LeftOut(4),
    };
    assert!(rt; lists(rt.alloc(), stream, "0 ACK 5\n", stream_end));
    assert!(rt; lists(rt.alloc(), "", "", StreamEnd::Rest(0)));
}

/// Adds a message of this size.
fn put_message(out: &mut Vec<u8>, size: u16) -> Result<(), AllocError> {
    out.extend_from_slice(&[1, 0, 0, 0, 0, 0])?;
    out.extend_from_slice(&size.to_le_bytes())?;
    for _ in 8..size {
        out.push(7)?;
    }
    Ok(())
}

#[test]
fn long_frame(rt: HostRuntime) -> Result<(), Fail> {
    let mut messages = Vec::new(rt.alloc());
    for _ in 0..16 {
        put_message(&mut messages, 65_532)?;
    }
    put_message(&mut messages, 60)?;
    let mut bytes = Vec::from_slice(rt.alloc(), &[0, 0, 0, 2])?;
    bytes.extend_from_slice(messages.as_slice())?;
    let listing = list_frames(rt.alloc(), bytes.as_slice())?;
    let shown = hex::encode(rt.alloc(), messages.as_slice())?;
    let mut lines = Text::from_slice(rt.alloc(), b"0 PROTOCOL ")?;
    lines.append(shown.as_bytes())?;
    lines.push(b'\n')?;
    assert_eq!(rt; messages.len(), 1_048_572);
    assert!(rt; listing.lines.as_slice() == lines.as_slice());
    assert_eq!(rt; listing.stream_end, StreamEnd::Rest(0));
    assert!(rt; is_fault(rt.alloc(), "20000002", FrameCause::SizeLarge));
    Ok(())
}
