//! One thread writes while others load.

ghost use Rattle.std.specs.Prelude.{◌≡◌, ◌≤◌};

use crate::{Eye, Pen, Receipt, new_pool};
use std::test::*;
use std::thread::{Threads, join};

const WRITES: u32 = 100_000;

const LOADS: u32 = 400_000;

// Writes both words again and again.
fn write_many(mut pen: Pen) -> Pen
    requires { 2 ≤ pen.words }
    ensures { (result.pool ≡ pen.pool) × (result.number ≡ pen.number) }
{
    for i in 0..WRITES {
        if pen.write(i % 2, u64::from(i)).is_err() {
            break;
        }
    }
    pen
}

// Loads both words again and again. It says whether one of them was seen to change.
fn watch(mut eye: Eye) -> (Receipt, bool)
    requires { 2 ≤ eye.words }
    ensures { (result.0.pool ≡ eye.pool) × (result.0.number ≡ eye.number) }
{
    let mut first = [0; 2];
    eye.load(0, &mut first);
    let mut was_changed = false;
    for _ in 0..LOADS {
        let mut now = [0; 2];
        eye.load(0, &mut now);
        if now != first {
            was_changed = true;
        }
    }
    (eye.finish(), was_changed)
}

// Writes in one thread while two others load. It says whether a word was seen to change.
fn copies<R: Threads + Sync>(
    rt: &R,
    pen: Pen,
    left: Eye,
    right: Eye,
) -> (Pen, Receipt, Receipt, bool)
    requires { (2 ≤ pen.words) × (2 ≤ left.words) × (2 ≤ right.words) }
    ensures pen { (result.0.pool ≡ pen.pool) × (result.0.number ≡ pen.number) }
    ensures left { (result.1.pool ≡ left.pool) × (result.1.number ≡ left.number) }
    ensures right { (result.2.pool ≡ right.pool) × (result.2.number ≡ right.number) }
{
    let (pen, ((one, saw_one), (other, saw_other))) = join(
        rt,
        || -> Pen
            requires { 2 ≤ pen.words }
            ensures { (result.pool ≡ pen.pool) × (result.number ≡ pen.number) }
        { write_many(pen) },
        || -> ((Receipt, bool), (Receipt, bool))
            requires { (2 ≤ left.words) × (2 ≤ right.words) }
            ensures { (result.0.0.pool ≡ left.pool) × (result.0.0.number ≡ left.number)
                × (result.1.0.pool ≡ right.pool) × (result.1.0.number ≡ right.number) }
        { watch_both(rt, left, right) },
    );
    (pen, one, other, saw_one || saw_other)
}

// Loads in two threads.
fn watch_both<R: Threads + Sync>(
    rt: &R,
    left: Eye,
    right: Eye,
) -> ((Receipt, bool), (Receipt, bool))
    requires { (2 ≤ left.words) × (2 ≤ right.words) }
    ensures { (result.0.0.pool ≡ left.pool) × (result.0.0.number ≡ left.number)
        × (result.1.0.pool ≡ right.pool) × (result.1.0.number ≡ right.number) }
{
    join(
        rt,
        || -> (Receipt, bool)
            requires { 2 ≤ left.words }
            ensures { (result.0.pool ≡ left.pool) × (result.0.number ≡ left.number) }
        { watch(left) },
        || -> (Receipt, bool)
            requires { 2 ≤ right.words }
            ensures { (result.0.pool ≡ right.pool) × (result.0.number ≡ right.number) }
        { watch(right) },
    )
}

#[test]
fn one_writes_while_two_load(rt: HostRuntime) -> Result<(), Fail> {
    let mut pen = new_pool(rt.alloc(), 7, 2)?;
    let (left, right) = (pen.note()?, pen.note()?);
    let (mut pen, one, other, was_changed) = copies(&rt, pen, left, right);
    assert!(rt; pen.settle(one).is_ok());
    assert!(rt; pen.settle(other).is_ok());
    println!(rt; "a word was seen changed during a copy: {was_changed}")?;
    Ok(())
}

#[test]
fn a_split_eye_on_two_threads(rt: HostRuntime) -> Result<(), Fail> {
    let mut pen = new_pool(rt.alloc(), 8, 2)?;
    let mut left = pen.note()?;
    let right = left.split()?;
    let (mut pen, one, other, was_changed) = copies(&rt, pen, left, right);
    assert!(rt; pen.settle(one.absorb(other)).is_ok());
    println!(rt; "a word was seen changed during a copy: {was_changed}")?;
    Ok(())
}
