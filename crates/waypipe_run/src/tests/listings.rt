//! The command `frames`.
use super::run;
use crate::status::{Reader, Status};
use std::alloc::{AllocError, Global};
use std::test::Fail;
use transfer_frames::FrameCause;

/// What the listing of a stream answers and writes.
fn list(alloc: Global, stream: Vec<u8>, places: usize) -> Result<(Status, Vec<u8>), AllocError> {
    let words = vec![in alloc; String::from_str(alloc, "frames")?]?;
    run(
        alloc,
        words.as_slice(),
        stream,
        places,
        Vec::new(alloc),
        Vec::new(alloc),
    )
}

/// The status of a fault at a place of the input.
fn fault(place: u64, cause: FrameCause) -> Status {
    Status::Frame {
        reader: Reader::Input,
        connection: 0,
        place,
        cause,
    }
}

#[test]
fn frames_command(rt: HostRuntime) -> Result<(), Fail> {
    let table = [
        ("", Status::Done, "rest 0\n"),
        (
            "900100000500000000000000000200000100000000000c00020000001104",
            Status::Done,
            "0 ACK 5\n12 PROTOCOL 0100000000000c0002000000\nrest 2\n",
        ),
        (
            "2a0100000100000061000000",
            Status::Done,
            "0 PIPE_TRANSFER 1 61\nrest 0\n",
        ),
        (
            "2a0100000100000061000001",
            fault(0, FrameCause::Padding),
            "frame input connection 0 place 0: Padding\n",
        ),
        (
            "9001000005000000000000002a0100000100000061000001",
            fault(12, FrameCause::Padding),
            "0 ACK 5\nframe input connection 0 place 12: Padding\n",
        ),
        (
            "84000000",
            fault(0, FrameCause::LeftOut(4)),
            "frame input connection 0 place 0: LeftOut 4\n",
        ),
        (
            "93000000",
            fault(0, FrameCause::UnknownType),
            "frame input connection 0 place 0: UnknownType\n",
        ),
        (
            "60000000",
            fault(0, FrameCause::SizeSmall),
            "frame input connection 0 place 0: SizeSmall\n",
        ),
        (
            "20000002",
            fault(0, FrameCause::SizeLarge),
            "frame input connection 0 place 0: SizeLarge\n",
        ),
    ];
    for (digits, status, want) in table {
        let stream = hex::decode(rt.alloc(), digits).ok().ok_or("digits")?;
        let (answer, text) = list(rt.alloc(), stream, 300)?;
        assert_eq!(rt; answer, status, "{digits}");
        assert_eq!(rt; text.as_slice(), want.as_bytes(), "{digits}");
    }
    Ok(())
}

/// So many bytes of a message whose header says that there are as many.
fn message(alloc: Global, header: [u8; 8], length: usize) -> Result<Vec<u8>, AllocError> {
    let mut bytes = Vec::from_slice(alloc, header.as_slice())?;
    for _ in 8..length {
        bytes.push(0)?;
    }
    Ok(bytes)
}

#[test]
fn long_frame(rt: HostRuntime) -> Result<(), Fail> {
    let alloc = rt.alloc();
    let long = message(alloc, [1, 0, 0, 0, 0, 0, 0xfc, 0xff], 65_532)?;
    let short = message(alloc, [1, 0, 0, 0, 0, 0, 60, 0], 60)?;
    let mut stream = Vec::from_slice(alloc, &[0, 0, 0, 2])?;
    for _ in 0..16 {
        stream.extend_from_slice(long.as_slice())?;
    }
    stream.extend_from_slice(short.as_slice())?;
    let (status, text) = list(alloc, stream, 2_200_000)?;
    assert_eq!(rt; status, Status::Done);
    // the place, the name, two digits a byte and the end of the line, and then the rest
    assert_eq!(rt; text.len(), 11 + 2 * (16 * 65_532 + 60) + 1 + 7);
    assert_eq!(rt; text.starts_with(b"0 PROTOCOL 010000000000fcff"), true);
    assert_eq!(rt; text.ends_with(b"\nrest 0\n"), true);
    Ok(())
}
