//! Two threads hold a pen, an eye or a receipt by reference at once.

ghost use Rattle.std.specs.Prelude.{◌≡◌};

use crate::{Eye, Pen, Receipt, new_pool};
use std::test::*;
use std::thread::{Threads, join};

// What two threads read of one pen.
fn words_by_two<R: Threads>(rt: &R, pen: &Pen) -> (u32, u32)
    ensures { (result.0 ≡ pen.now.words) × (result.1 ≡ pen.now.words) }
{
    join(
        rt,
        || -> u32
            ensures { result ≡ pen.entry.now.words }
        { pen.words() },
        || -> u32
            ensures { result ≡ pen.entry.now.words }
        { pen.words() },
    )
}

// What two threads read of one eye.
fn low_and_number<R: Threads>(rt: &R, eye: &Eye) -> (u64, u64)
    ensures { (result.0 ≡ eye.now.low) × (result.1 ≡ eye.now.number) }
{
    join(
        rt,
        || -> u64
            ensures { result ≡ eye.entry.now.low }
        { eye.low() },
        || -> u64
            ensures { result ≡ eye.entry.now.number }
        { eye.number() },
    )
}

// What two threads read of one receipt.
fn high_and_number<R: Threads>(rt: &R, receipt: &Receipt) -> (u64, u64)
    ensures { (result.0 ≡ receipt.now.high) × (result.1 ≡ receipt.now.number) }
{
    join(
        rt,
        || -> u64
            ensures { result ≡ receipt.entry.now.high }
        { receipt.high() },
        || -> u64
            ensures { result ≡ receipt.entry.now.number }
        { receipt.number() },
    )
}

#[test]
fn a_pen_is_shared(rt: HostRuntime) -> Result<(), Fail> {
    let pen = new_pool(rt.alloc(), 7, 2)?;
    assert_eq!(rt; words_by_two(&rt, &pen), (2, 2));
    Ok(())
}

#[test]
fn an_eye_is_shared(rt: HostRuntime) -> Result<(), Fail> {
    let mut pen = new_pool(rt.alloc(), 7, 2)?;
    assert!(rt; pen.write(1, 5).is_ok());
    let eye = pen.note()?;
    assert_eq!(rt; low_and_number(&rt, &eye), (1, 7));
    Ok(())
}

#[test]
fn a_receipt_is_shared(rt: HostRuntime) -> Result<(), Fail> {
    let mut pen = new_pool(rt.alloc(), 7, 2)?;
    let eye = pen.note()?;
    assert!(rt; pen.write(1, 5).is_ok());
    let receipt = eye.finish();
    assert_eq!(rt; high_and_number(&rt, &receipt), (1, 7));
    Ok(())
}
