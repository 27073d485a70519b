//! A file of a few segments, and buffers at the end of a file.

ghost use Rattle.std.specs.Prelude.{◌≡◌, ◌<◌, length, IfOk};
ghost use Rattle.shm_pools.specs.Files.{pen_at};

use super::*;
use pool_words::Receipt;
use std::alloc::AllocError;
use std::test::*;

const IMAGE: Buffer = Buffer {
    offset: 0,
    width: 4,
    height: 4,
    stride: 16,
    format: 0,
};

#[test]
fn file_pen(rt: HostRuntime) -> Result<(), Fail> {
    let mut pen = FilePen::new(rt.alloc(), 1, 64)?;
    pen.grow(128)?;
    assert_eq!(rt; pen.number(), 1);
    let shared = pen.share()?;
    assert_eq!(rt; (shared.number, shared.eyes.as_slice().len()), (1, 2));
    for eye in shared.eyes.as_slice() {
        assert_eq!(rt; (eye.words(), eye.low()), (8, 0));
    }
    assert_eq!(rt;
        shared.place_of(7),
        Some(WordPlace {
            segment: 0,
            word: 7
        })
    );
    assert_eq!(rt;
        shared.place_of(9),
        Some(WordPlace {
            segment: 1,
            word: 1
        })
    );
    assert_eq!(rt; shared.place_of(16), None);
    assert!(rt; fits(&IMAGE, 64) && !fits(&IMAGE, 63));
    Ok(())
}

#[test]
fn buffers_at_the_end(rt: HostRuntime) {
    // The product of the largest numbers does not wrap.
    let huge = Buffer {
        width: 1,
        height: i32::MAX,
        stride: i32::MAX,
        ..IMAGE
    };
    assert!(rt; !fits(&huge, u32::MAX));
    let other = Buffer {
        offset: 63,
        format: 2,
        ..IMAGE
    };
    assert!(rt; fits(&other, 64) && !fits(&other, 63));
}

// What one segment's eye sees of its first two words.
fn look(pen: &mut FilePen, segment: usize) -> Result<(Receipt, [u64; 2]), AllocError>
    requires { segment < length pen.old.segments }
    ensures receipt { let own = pen_at pen.old.segments segment in
        IfOk result (λ r. (r.0.pool ≡ own.pool) × (r.0.number ≡ own.number)) }
    ensures same { pen.new ≡ pen.old }
{
    let mut eyes = pen.share()?.eyes.into_vec();
    let mut eye = eyes[segment].split()?;
    let mut words = [0; 2];
    if eye.words() >= 2 {
        eye.load(0, &mut words);
    }
    Ok((eye.finish(), words))
}

#[test]
fn words_of_two_segments(rt: HostRuntime) -> Result<(), Fail> {
    let mut pen = FilePen::new(rt.alloc(), -3, 64)?;
    pen.grow(192)?;
    pen.write(7, 1)?;
    pen.write(9, 5)?;
    let (receipt, words) = look(&mut pen, 1)?;
    assert_eq!(rt; words, [0, 5]);
    assert!(rt; pen.settle(1, receipt).is_ok());
    assert_eq!(rt; pen.number(), -3);
    Ok(())
}
