use super::*;
use std::alloc::Global;
use std::test::*;
use wl_wire::{Bytes, Text};

/// The line of the one frame that the bytes are, and its bytes as they are written once alone and
/// once more behind.
fn again(alloc: Global, bytes: &[u8]) -> Option<(Text, Bytes, usize)> {
    match first_frame(alloc, bytes) {
        Ok(Some((frame, length))) => {
            let copy = frame.clone().ok()?;
            let line = frame_line(alloc, 7, &copy).ok()?;
            let mut spelled = encode(alloc, &frame).ok()?;
            append_frame(&mut spelled, &copy).ok()?;
            Some((line, spelled, length))
        }
        _ => None,
    }
}

/// What stands at the front, but for the frame.
fn front_of(alloc: Global, bytes: &[u8]) -> Result<Option<usize>, DecodeFault> {
    match first_frame(alloc, bytes) {
        Ok(Some((_, length))) => Ok(Some(length)),
        Ok(None) => Ok(None),
        Err(fault) => Err(fault),
    }
}

/// A frame of each type, and its line.
const ONE_OF_EACH: [(&str, &str); 12] = [
    (
        "000300000100000000000c00020000000200000000000800",
        "7 PROTOCOL 0100000000000c00020000000200000000000800",
    ),
    (
        "8102000001000000feffffffffffff7f00000080",
        "7 INJECT 1 -2 2147483647 -2147483648",
    ),
    ("8201000003000000ffffffff", "7 OPEN_FILE 3 4294967295"),
    ("83010000ffffffff80000000", "7 EXTEND_FILE -1 128"),
    (
        "050a0000020000004000000080000000000102030405060708090a0b0c0d0e0f101112131415161718191a1b1c1d1e1f202122232425262728292a2b2c2d2e2f303132333435363738393a3b3c3d3e3f",
        "7 FILL 2 64 128 000102030405060708090a0b0c0d0e0f101112131415161718191a1b1c1d1e1f202122232425262728292a2b2c2d2e2f303132333435363738393a3b3c3d3e3f",
    ),
    ("08010000f9ffffff", "7 OPEN_PIPE -7"),
    ("6a010000010000006162ff00", "7 PIPE_TRANSFER 1 6162ff"),
    ("0b01000009000000", "7 PIPE_SHUT_R 9"),
    ("0c01000009000000", "7 PIPE_SHUT_W 9"),
    ("90010000ffffffffffffffff", "7 ACK 18446744073709551615"),
    (
        "11040000776179706970652d73657373696f6e21001000000000000000000010",
        "7 RESTART 776179706970652d73657373696f6e21 4096 1152921504606846976",
    ),
    ("1201000005000000", "7 CLOSE 5"),
];

#[test]
fn each_type(rt: HostRuntime) -> Result<(), Fail> {
    for (text, line) in ONE_OF_EACH {
        let bytes = hex::decode(rt.alloc(), text)
            .ok()
            .ok_or("the row is hexadecimal")?;
        let (shown, spelled, length) = again(rt.alloc(), bytes.as_slice()).ok_or(
            "the row is a frame",
        )?;
        assert_eq!(rt; shown.as_slice(), line.as_bytes());
        assert_eq!(rt; length, bytes.len());
        assert!(rt; length <= spelled.len());
        let (alone, behind) = spelled.as_slice().split_at(length);
        assert_eq!(rt; alone, bytes.as_slice());
        assert_eq!(rt; behind, bytes.as_slice());
    }
    Ok(())
}

#[test]
fn truncations(rt: HostRuntime) -> Result<(), Fail> {
    for (text, _) in ONE_OF_EACH {
        let bytes = hex::decode(rt.alloc(), text)
            .ok()
            .ok_or("the row is hexadecimal")?;
        for end in 0..bytes.len() {
            let (part, _) = bytes.as_slice().split_at(end);
            assert_eq!(rt; front_of(rt.alloc(), part), Ok(None));
        }
    }
    Ok(())
}

const WORD_FAULTS: [(&str, FrameCause); 15] = [
    ("7f000000", FrameCause::SizeSmall),
    ("60000000", FrameCause::SizeSmall),
    ("00000000", FrameCause::SizeSmall),
    ("3f000002", FrameCause::SizeLarge),
    ("20000002", FrameCause::SizeLarge),
    ("ffffffff", FrameCause::SizeLarge),
    ("93000000", FrameCause::UnknownType),
    ("9f000000", FrameCause::UnknownType),
    ("84000000", FrameCause::LeftOut(4)),
    ("86000000", FrameCause::LeftOut(6)),
    ("87000000", FrameCause::LeftOut(7)),
    ("89000000", FrameCause::LeftOut(9)),
    ("8d000000", FrameCause::LeftOut(13)),
    ("8e000000", FrameCause::LeftOut(14)),
    ("8f000000", FrameCause::LeftOut(15)),
];

#[test]
fn word_faults(rt: HostRuntime) -> Result<(), Fail> {
    for (text, cause) in WORD_FAULTS {
        let bytes = hex::decode(rt.alloc(), text)
            .ok()
            .ok_or("the row is hexadecimal")?;
        assert_eq!(rt;
            front_of(rt.alloc(), bytes.as_slice()),
            Err(DecodeFault::Frame(cause))
        );
    }
    Ok(())
}

/// Whether each row has this first fault.
fn all_have(alloc: Global, rows: &[&str], cause: FrameCause) -> bool {
    for text in rows {
        match hex::decode(alloc, *text) {
            Ok(bytes) => {
                if front_of(alloc, bytes.as_slice()) != Err(DecodeFault::Frame(cause)) {
                    return false;
                }
            }
            Err(_) => return false,
        }
    }
    true
}

const BODY_LENGTHS: [&str; 21] = [
    "80000000",
    "0001000031323334",
    "81000000",
    "210100000100000005010101",
    "0201000001000000",
    "02020000010000000100000000000000",
    "a3010000010000000100000078010101",
    "05020000010000000000000000000000",
    "e509000001000000000000004000000000000000000000000000000000000000000000000000000000000000000000000000000000000000000000000000000000000000000000000000000000000000",
    "250a00000000000001000000400000000000000000000000000000000000000000000000000000000000000000000000000000000000000000000000000000000000000000000000000000000000000000000000",
    "88000000",
    "880100000100000001000000",
    "0a01000001000000",
    "8b0100000100000001000000",
    "cc00000000000000",
    "1001000001000000",
    "10020000010000000000000000000000",
    "91030000000000000000000000000000000000000000000000000000",
    "910400000000000000000000000000000000000000000000000000000000000000000000",
    "92000000",
    "920100000100000001000000",
];

#[test]
fn body_lengths(rt: HostRuntime) {
    assert!(rt; all_have(rt.alloc(), &BODY_LENGTHS, FrameCause::BodyLength));
}

const PADDINGS: [&str; 3] = [
    "2a0100000100000061000001",
    "2a0100000100000061010000",
    "4a0100000000000061620080",
];

#[test]
fn paddings(rt: HostRuntime) {
    assert!(rt; all_have(rt.alloc(), &PADDINGS, FrameCause::Padding));
}

const ZERO_RIDS: [&str; 9] = [
    "0101000000000000",
    "01020000010000000000000002000000",
    "820100000000000001000000",
    "830100000000000001000000",
    "050a000000000000010000000200000000000000000000000000000000000000000000000000000000000000000000000000000000000000000000000000000000000000000000000000000000000000",
    "0801000000000000",
    "2a0100000000000061000000",
    "0b01000000000000",
    "0c01000000000000",
];

#[test]
fn zero_rids(rt: HostRuntime) {
    assert!(rt; all_have(rt.alloc(), &ZERO_RIDS, FrameCause::RidZero));
}

const FILL_RANGES: [&str; 6] = [
    "050a000001000000010000004100000000000000000000000000000000000000000000000000000000000000000000000000000000000000000000000000000000000000000000000000000000000000",
    "050a000001000000000000003f00000000000000000000000000000000000000000000000000000000000000000000000000000000000000000000000000000000000000000000000000000000000000",
    "050a000001000000000000008000000000000000000000000000000000000000000000000000000000000000000000000000000000000000000000000000000000000000000000000000000000000000",
    "050a000001000000400000004000000000000000000000000000000000000000000000000000000000000000000000000000000000000000000000000000000000000000000000000000000000000000",
    "050a000001000000400000000000000000000000000000000000000000000000000000000000000000000000000000000000000000000000000000000000000000000000000000000000000000000000",
    "050a000001000000c0ffffff0000000000000000000000000000000000000000000000000000000000000000000000000000000000000000000000000000000000000000000000000000000000000000",
];

#[test]
fn fill_ranges(rt: HostRuntime) {
    assert!(rt; all_have(rt.alloc(), &FILL_RANGES, FrameCause::FillRange));
}

const CUT_MESSAGES: [&str; 5] = [
    "800100000100000000000400",
    "000200000100000000000a0000000000",
    "00020000010000000000100000000000",
    "800200000100000000000c000200000000000000",
    "000300000100000000000c00020000000100000000000000",
];

#[test]
fn cut_messages(rt: HostRuntime) {
    assert!(rt; all_have(rt.alloc(), &CUT_MESSAGES, FrameCause::MessageCut));
}

/// Adds a message of this size.
fn put_message(out: &mut Vec<u8>, size: u16) -> Result<(), std::alloc::AllocError> {
    out.extend_from_slice(&[1, 0, 0, 0, 0, 0])?;
    out.extend_from_slice(&size.to_le_bytes())?;
    for _ in 8..size {
        out.push(7)?;
    }
    Ok(())
}

#[test]
fn long_frame(rt: HostRuntime) -> Result<(), Fail> {
    let mut bytes = Vec::from_slice(rt.alloc(), &[0, 0, 0, 2])?;
    for _ in 0..16 {
        put_message(&mut bytes, 65_532)?;
    }
    put_message(&mut bytes, 60)?;
    assert_eq!(rt; front_of(rt.alloc(), bytes.as_slice()), Ok(Some(1_048_576)));
    bytes.push(9)?;
    assert_eq!(rt; front_of(rt.alloc(), bytes.as_slice()), Ok(Some(1_048_576)));
    let large = [0x20, 0, 0, 2];
    let fault = DecodeFault::Frame(FrameCause::SizeLarge);
    assert_eq!(rt; front_of(rt.alloc(), &large), Err(fault));
    Ok(())
}

#[test]
fn digits_behind_a_text(rt: HostRuntime) -> Result<(), Fail> {
    let mut text = Text::new(rt.alloc());
    text.append(b"> ")?;
    append_hex(&mut text, &[0, 0x9a, 0xff])?;
    append_hex(&mut text, &[])?;
    let shown: &[u8] = b"> 009aff";
    assert_eq!(rt; text.as_slice(), shown);
    append_hex(&mut text, &[1; 300])?;
    assert_eq!(rt; text.len(), 608);
    Ok(())
}

#[test]
fn small_frames(rt: HostRuntime) {
    let mut out = [9u8; 64];
    let ack = Frame::Ack { count: 5 };
    assert_eq!(rt; put_small(&ack, &mut out), 12);
    assert_eq!(rt;
        &out[..14],
        [0x90, 1, 0, 0, 5, 0, 0, 0, 0, 0, 0, 0, 9, 9].as_slice()
    );
    let restart = Frame::Restart {
        token: [3; 16],
        connection: 2,
        received: 258,
    };
    assert_eq!(rt; put_small(&restart, &mut out), 32);
    assert_eq!(rt; &out[..8], [0x11, 4, 0, 0, 3, 3, 3, 3].as_slice());
    assert_eq!(rt;
        &out[20..34],
        [2, 0, 0, 0, 2, 1, 0, 0, 0, 0, 0, 0, 9, 9].as_slice()
    );
}

#[test]
fn numbers_of_causes(rt: HostRuntime) {
    assert_eq!(rt; FrameCause::LeftOut(4).number(), 4);
    assert_eq!(rt; FrameCause::RestartMissing.number(), 20);
    assert_eq!(rt; FrameCause::FilesTooLarge.number(), 39);
}

#[test]
#[tactic(auto, unfolding(crate::specs::Numbers::word_of))]
fn decode_whole(rt: HostRuntime) {
    let bytes = [0x90, 1, 0, 0, 5, 0, 0, 0, 0, 0, 0, 0];
    let count = match decode(rt.alloc(), &bytes) {
        Ok(Frame::Ack { count }) => count,
        _ => 0,
    };
    assert_eq!(rt; count, 5);
}
