use super::*;
use std::test::*;
use transfer_frames::{FrameCause, frame_line};
use wl_wire::Text;

/// What comes next: a frame's line, or the count of bytes left.
fn next_line(alloc: Global, reader: &mut FrameReader) -> Result<Option<Text>, DecodeFault> {
    let place = reader.place();
    match reader.next_frame() {
        Ok(Some(frame)) => match frame_line(alloc, place, &frame) {
            Ok(line) => Ok(Some(line)),
            Err(_) => Err(DecodeFault::Memory),
        },
        Ok(None) => Ok(None),
        Err(fault) => Err(fault),
    }
}

/// Whether the next frame has this line.
fn gives(alloc: Global, reader: &mut FrameReader, line: &str) -> bool {
    match next_line(alloc, reader) {
        Ok(Some(shown)) => shown.as_slice() == line.as_bytes(),
        _ => false,
    }
}

/// Whether the reader waits for bytes.
fn waits(alloc: Global, reader: &mut FrameReader) -> bool {
    matches!(next_line(alloc, reader), Ok(None))
}

/// Whether the stream of this hexadecimal text is at fault at its front.
fn is_fault(alloc: Global, text: &str, cause: FrameCause) -> bool {
    let mut reader = FrameReader::new(alloc);
    match hex::decode(alloc, text) {
        Ok(bytes) => {
            reader.feed(bytes.as_slice()).is_ok()
                && next_line(alloc, &mut reader).err() == Some(DecodeFault::Frame(cause))
                && reader.place() == 0
        }
        Err(_) => false,
    }
}

#[test]
fn frames_command(rt: HostRuntime) -> Result<(), Fail> {
    let stream = "900100000500000000000000000200000100000000000c00020000001104";
    let bytes = hex::decode(rt.alloc(), stream).ok().ok_or("hexadecimal")?;
    let mut reader = FrameReader::new(rt.alloc());
    reader.feed(bytes.as_slice())?;
    assert!(rt; gives(rt.alloc(), &mut reader, "0 ACK 5"));
    assert!(rt;
        gives(
            rt.alloc(),
            &mut reader,
            "12 PROTOCOL 0100000000000c0002000000"
        )
    );
    assert!(rt; waits(rt.alloc(), &mut reader));
    assert_eq!(rt; reader.place(), 28);
    assert_eq!(rt; bytes.len(), 30);
    Ok(())
}

#[test]
fn transfer_and_faults(rt: HostRuntime) -> Result<(), Fail> {
    let bytes = hex::decode(rt.alloc(), "2a0100000100000061000000")
        .ok()
        .ok_or("hexadecimal")?;
    let mut reader = FrameReader::new(rt.alloc());
    reader.feed(bytes.as_slice())?;
    assert!(rt; gives(rt.alloc(), &mut reader, "0 PIPE_TRANSFER 1 61"));
    assert_eq!(rt; reader.place(), 12);
    assert!(rt; is_fault(rt.alloc(), "2a0100000100000061000001", FrameCause::Padding));
    assert!(rt; is_fault(rt.alloc(), "84000000", FrameCause::LeftOut(4)));
    assert!(rt; is_fault(rt.alloc(), "93000000", FrameCause::UnknownType));
    assert!(rt; is_fault(rt.alloc(), "60000000", FrameCause::SizeSmall));
    assert!(rt; is_fault(rt.alloc(), "20000002", FrameCause::SizeLarge));
    Ok(())
}

/// How many frames come, where the bytes are fed one by one, and the place behind them.
fn one_by_one(alloc: Global, bytes: &[u8]) -> Result<(usize, u64), DecodeFault> {
    let mut reader = FrameReader::new(alloc);
    let mut count = 0usize;
    for byte in bytes {
        if reader.feed(&[*byte]).is_err() {
            return Err(DecodeFault::Memory);
        }
        if reader.next_frame()?.is_some() {
            count = count.saturating_add(1);
        }
    }
    Ok((count, reader.place()))
}

/// A frame of each of the twelve types, one behind the other, and then a word at fault.
const STREAM: &str = "000200000100000000000c00020000008102000001000000feffffffffffff7f00000080\
8201000003000000ffffffff83010000ffffffff80000000050a000002000000400000008000000000010203\
0405060708090a0b0c0d0e0f101112131415161718191a1b1c1d1e1f202122232425262728292a2b2c2d2e2f\
303132333435363738393a3b3c3d3e3f08010000f9ffffff6a010000010000006162ff00\
0b010000090000000c0100000900000090010000ffffffffffffffff\
11040000776179706970652d73657373696f6e21001000000000000000000010120100000500000060000000";

#[test]
fn byte_by_byte(rt: HostRuntime) -> Result<(), Fail> {
    let bytes = hex::decode(rt.alloc(), STREAM).ok().ok_or("hexadecimal")?;
    let (whole, bad) = bytes.as_slice().split_at(bytes.len().saturating_sub(4));
    assert_eq!(rt; one_by_one(rt.alloc(), whole), Ok((12, whole.len() as u64)));
    assert_eq!(rt; bad.len(), 4);
    let fault = DecodeFault::Frame(FrameCause::SizeSmall);
    assert_eq!(rt; one_by_one(rt.alloc(), bytes.as_slice()), Err(fault));
    Ok(())
}

#[test]
fn fault_stays(rt: HostRuntime) -> Result<(), Fail> {
    let mut reader = FrameReader::new(rt.alloc());
    reader.feed(&[0x90, 1, 0, 0, 5, 0, 0, 0, 0, 0, 0, 0, 0x84, 0, 0])?;
    assert!(rt; gives(rt.alloc(), &mut reader, "0 ACK 5"));
    assert!(rt; waits(rt.alloc(), &mut reader));
    reader.feed(&[0])?;
    let fault = DecodeFault::Frame(FrameCause::LeftOut(4));
    assert_eq!(rt; next_line(rt.alloc(), &mut reader).err(), Some(fault));
    reader.feed(&[0x90, 1, 0, 0, 5, 0, 0, 0, 0, 0, 0, 0])?;
    assert_eq!(rt; next_line(rt.alloc(), &mut reader).err(), Some(fault));
    assert_eq!(rt; reader.place(), 12);
    Ok(())
}
