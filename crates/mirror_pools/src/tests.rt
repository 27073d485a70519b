//! Causes by tables, and the bytes of a mirror behind each change.

use super::*;
use std::test::Fail;
use transfer_frames::FrameCause;

const MOST: u32 = 67_108_864;

#[test]
fn files_are_opened_up_to_the_limits(rt: HostRuntime) {
    let mut sizes = Sizes::new(rt.alloc());
    for (rid, size, answer) in [
        (
            1,
            MOST + 1,
            Err(MirrorFault::Frame(FrameCause::FileTooLarge)),
        ),
        (1, MOST, Ok(())),
        (1, 0, Err(MirrorFault::Frame(FrameCause::RidInUse))),
        (1, MOST + 1, Err(MirrorFault::Frame(FrameCause::RidInUse))),
        (-1, MOST, Ok(())),
        (3, MOST, Ok(())),
        (4, MOST - 1, Ok(())),
        (5, 2, Err(MirrorFault::Frame(FrameCause::FilesTooLarge))),
        (
            5,
            MOST + 1,
            Err(MirrorFault::Frame(FrameCause::FileTooLarge)),
        ),
        (5, 1, Ok(())),
        (6, 0, Ok(())),
    ] {
        assert_eq!(rt; sizes.open(rid, size), answer, "rid {rid} size {size}");
    }
}

#[test]
fn files_grow_up_to_the_limits(rt: HostRuntime) -> Result<(), Fail> {
    let mut sizes = Sizes::new(rt.alloc());
    for rid in [1, 2, 3, 4] {
        assert_eq!(rt; sizes.open(rid, 100), Ok(()));
    }
    for (rid, size, answer) in [
        (5, 100, Err(MirrorFault::Frame(FrameCause::RidUnknown))),
        (1, 99, Err(MirrorFault::Frame(FrameCause::ExtendSmaller))),
        (1, 100, Ok(())),
        (
            1,
            MOST + 1,
            Err(MirrorFault::Frame(FrameCause::FileTooLarge)),
        ),
        (1, MOST, Ok(())),
        (2, MOST, Ok(())),
        (3, MOST, Ok(())),
        (4, MOST, Ok(())),
    ] {
        assert_eq!(rt; sizes.extend(rid, size), answer, "rid {rid} size {size}");
    }
    assert_eq!(rt; sizes.open(5, 0), Ok(()));
    let full = Err(MirrorFault::Frame(FrameCause::FilesTooLarge));
    assert_eq!(rt; sizes.extend(5, 1), full);
    Ok(())
}

#[test]
fn fills_end_inside(rt: HostRuntime) {
    let mut sizes = Sizes::new(rt.alloc());
    assert_eq!(rt; sizes.open(1, 100), Ok(()));
    assert_eq!(rt; sizes.open(2, 0), Ok(()));
    for (rid, start, end, answer) in [
        (1, 0, 128, Ok(())),
        (1, 64, 128, Ok(())),
        (1, 64, 192, Err(FrameCause::FillOutside)),
        (2, 0, 64, Err(FrameCause::FillOutside)),
        (3, 0, 64, Err(FrameCause::RidUnknown)),
    ] {
        assert_eq!(rt; sizes.fill(rid, start, end), answer, "rid {rid} to {end}");
    }
}

// Opens or extends a mirror where the checks pass.
fn told(mirrors: &mut Mirrors, rid: i32, size: u32) -> Result<(), MirrorFault> {
    let changed = if mirrors.size(rid).is_some() {
        mirrors.check_extend(rid, size)?;
        mirrors.extend(rid, size)
    } else {
        mirrors.check_open(rid, size)?;
        mirrors.open(rid, size)
    };
    changed.map_err(|_| MirrorFault::Memory)
}

// Fills a mirror where the check passes.
fn filled(mirrors: &mut Mirrors, rid: i32, start: u32, bytes: &[u8; 64]) -> Result<(), FrameCause> {
    let end = start.checked_add(64).ok_or(FrameCause::FillOutside)?;
    mirrors.check_fill(rid, end)?;
    mirrors.fill(rid, start, bytes);
    Ok(())
}

#[test]
fn mirrors_hold_what_was_filled(rt: HostRuntime) -> Result<(), Fail> {
    let mut mirrors = Mirrors::new(rt.alloc());
    assert_eq!(rt; mirrors.bytes(1), None);
    assert_eq!(rt; told(&mut mirrors, 1, 60), Ok(()));
    assert_eq!(rt; told(&mut mirrors, -1, 1), Ok(()));
    assert_eq!(rt; mirrors.bytes(1), Some([0u8; 64].as_slice()));
    assert_eq!(rt; filled(&mut mirrors, 1, 0, &[7; 64]), Ok(()));
    assert_eq!(rt;
        filled(&mut mirrors, 1, 64, &[8; 64]),
        Err(FrameCause::FillOutside)
    );
    assert_eq!(rt; told(&mut mirrors, 1, 130), Ok(()));
    assert_eq!(rt; filled(&mut mirrors, 1, 64, &[9; 64]), Ok(()));
    let mut want = [0u8; 192];
    want[..64].fill(7);
    want[64..128].fill(9);
    assert_eq!(rt; mirrors.bytes(1), Some(want.as_slice()));
    assert_eq!(rt; mirrors.bytes(-1), Some([0u8; 64].as_slice()));
    assert_eq!(rt; mirrors.size(1), Some(130));
    assert_eq!(rt; mirrors.size(2), None);
    let smaller = MirrorFault::Frame(FrameCause::ExtendSmaller);
    assert_eq!(rt; told(&mut mirrors, 1, 129), Err(smaller));
    Ok(())
}

#[test]
fn mirrors_are_tested_as_sizes_are(rt: HostRuntime) -> Result<(), Fail> {
    let mut mirrors = Mirrors::new(rt.alloc());
    assert_eq!(rt; told(&mut mirrors, 1, 60), Ok(()));
    for (rid, size, answer) in [
        (1, MOST + 1, Err(FrameCause::RidInUse)),
        (2, MOST + 1, Err(FrameCause::FileTooLarge)),
        (2, MOST, Ok(())),
    ] {
        assert_eq!(rt; mirrors.check_open(rid, size), answer, "open {rid} {size}");
    }
    for (rid, size, answer) in [
        (2, 60, Err(FrameCause::RidUnknown)),
        (1, 59, Err(FrameCause::ExtendSmaller)),
        (1, 60, Ok(())),
        (1, MOST + 1, Err(FrameCause::FileTooLarge)),
    ] {
        assert_eq!(rt;
            mirrors.check_extend(rid, size),
            answer,
            "extend {rid} {size}"
        );
    }
    for (rid, end, answer) in [
        (2, 64, Err(FrameCause::RidUnknown)),
        (1, 128, Err(FrameCause::FillOutside)),
        (1, 64, Ok(())),
    ] {
        assert_eq!(rt; mirrors.check_fill(rid, end), answer, "fill {rid} to {end}");
    }
    Ok(())
}
