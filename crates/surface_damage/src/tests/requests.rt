//! Requests for an id that has no surface, and for one that was made anew.

ghost use Rattle.surface_damage.specs.DueBytes.{Stands};

use crate::tests::scene::{expect_runs, image, rect, standing};
use crate::{BufferKey, Standing, Surfaces};
use std::alloc::{AllocError, Global};
use std::rt::HostRuntime;

// An image of four rows of one block each, in a file of its size.
fn four_blocks() -> Standing
    ensures { Stands result }
{
    standing(image(0, 16, 4, 64), 256)
}

#[test]
fn no_surface_shows_nothing(rt: HostRuntime) {
    let mut surfaces = Surfaces::new(rt.alloc()).expect(&rt, "memory");
    surfaces.attach(5, Some(BufferKey(7)));
    surfaces.set_scale(5, 2);
    surfaces.set_transform(5, 1);
    surfaces.damage(5, rect(0, 0, 1, 1)).expect(&rt, "memory");
    let blocks = surfaces.commit(5, &four_blocks()).map(|due| due.blocks);
    expect_runs(&rt, blocks, &[]);
    assert!(rt; !surfaces.has(5));
    assert_eq!(rt; surfaces.current(5), None);
    surfaces.destroy(5);
}

#[test]
fn a_surface_made_anew_forgets(rt: HostRuntime) {
    for destroyed in [false, true] {
        let blocks = made_anew(rt.alloc(), destroyed).expect(&rt, "memory");
        assert_eq!(rt; blocks, 4, "destroyed before: {destroyed}");
    }
}

// How many blocks the second commit of a buffer fills, where its surface was made again in between.
fn made_anew(alloc: Global, destroyed: bool) -> Result<usize, AllocError> {
    let mut surfaces = Surfaces::new(alloc)?;
    surfaces.make(5)?;
    surfaces.attach(5, Some(BufferKey(7)));
    surfaces.commit(5, &four_blocks())?;
    if destroyed {
        surfaces.destroy(5);
    }
    surfaces.make(5)?;
    surfaces.attach(5, Some(BufferKey(7)));
    let due = surfaces.commit(5, &four_blocks())?;
    Ok((0..8).filter(|block| due.blocks.contains(*block)).count())
}
