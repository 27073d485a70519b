//! A pool in one thread and in three. No test asserts what the schedule decides: whether a word was
//! seen changed is only printed.

use super::*;
use std::test::*;

mod shared;
mod threads;

#[test]
fn pool_words(rt: HostRuntime) -> Result<(), Fail> {
    let mut pen = new_pool(rt.alloc(), 5, 8)?;
    assert_eq!(rt; pen.words(), 8);
    pen.write(0, 1)?;
    let mut eye = pen.note()?;
    pen.write(0, 2)?;
    pen.write(1, 3)?;
    let mut seen = [0; 2];
    eye.load(0, &mut seen);
    assert_eq!(rt; seen, [2, 3]);
    assert_eq!(rt; (eye.number(), eye.words(), eye.low()), (5, 8, 1));
    let receipt = eye.finish();
    assert_eq!(rt; (receipt.number(), receipt.high()), (5, 3));
    assert!(rt; pen.settle(receipt).is_ok());
    Ok(())
}

#[test]
fn stranger(rt: HostRuntime) -> Result<(), Fail> {
    let mut pen = new_pool(rt.alloc(), 5, 8)?;
    let mut other = new_pool(rt.alloc(), 6, 8)?;
    let receipt = other.note()?.finish();
    match pen.settle(receipt) {
        Ok(()) => assert!(rt; false),
        Err(Stranger { pen, receipt }) => assert_eq!(rt; (pen, receipt), (5, 6)),
    }
    Ok(())
}

#[test]
fn absorbed_receipts(rt: HostRuntime) -> Result<(), Fail> {
    let mut pen = new_pool(rt.alloc(), 1, 2)?;
    let mut eye = pen.note()?;
    let other = eye.split()?;
    let first = eye.finish();
    pen.write(1, 4)?;
    let both = first.absorb(other.finish());
    assert_eq!(rt; both.high(), 1);
    assert!(rt; pen.settle(both).is_ok());
    Ok(())
}
