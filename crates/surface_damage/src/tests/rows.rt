//! Worked examples: the runs of the last commit.

use crate::Rect;
use crate::tests::scene::{Scene, expect_runs, image, rect, run};
use block_intervals::Blocks;
use std::alloc::{AllocError, Global};
use std::rt::HostRuntime;

#[test]
fn damage_runs(rt: HostRuntime) {
    let everywhere = rect(0, 0, i32::MAX, i32::MAX);
    let far_below = rect(i32::MIN, i32::MIN, i32::MAX, i32::MAX);
    let backward = rect(0, 0, -1, 4);
    expect_runs(&rt, rotated_damage(rt.alloc()), &[run(1, 2)]);
    expect_runs(&rt, scaled_damage(rt.alloc()), &[run(2, 3), run(5, 6)]);
    expect_runs(&rt, damage_edges(rt.alloc(), &[backward]), &[]);
    expect_runs(&rt, damage_edges(rt.alloc(), &[backward, far_below]), &[]);
    expect_runs(
        &rt,
        damage_edges(rt.alloc(), &[backward, far_below, everywhere]),
        &[run(0, 1)],
    );
    expect_runs(&rt, returning_buffer(rt.alloc(), 6), &[run(1, 3)]);
    expect_runs(&rt, returning_buffer(rt.alloc(), 7), &[run(0, 4)]);
    expect_runs(&rt, many_runs(rt.alloc(), 1025), &[run(0, 2049)]);
}

#[test]
fn runs_up_to_the_bound_stay(rt: HostRuntime) {
    for height in [1023_u16, 1024] {
        let blocks = many_runs(rt.alloc(), i32::from(height)).expect(&rt, "memory");
        assert_eq!(rt; blocks.len(), usize::from(height));
        for k in 0..u32::from(height) {
            assert!(rt; blocks.contains(2 * k));
            assert!(rt; !blocks.contains(2 * k + 1));
        }
    }
}

fn rotated_damage(alloc: Global) -> Result<Blocks, AllocError> {
    let buffer = image(0, 4, 2, 64);
    let mut scene = Scene::new(alloc)?;
    scene.transform(1);
    scene.attach(7);
    scene.commit(buffer, 128)?;
    scene.damage(rect(0, 0, 1, 1))?;
    scene.commit(buffer, 128)
}

fn scaled_damage(alloc: Global) -> Result<Blocks, AllocError> {
    let buffer = image(0, 33, 2, 192);
    let mut scene = Scene::new(alloc)?;
    scene.scale(2);
    scene.attach(7);
    scene.commit(buffer, 384)?;
    scene.damage(rect(16, 0, 1, 1))?;
    scene.commit(buffer, 384)
}

// A first commit, then one with each of the rectangles.
fn damage_edges(alloc: Global, rects: &[Rect]) -> Result<Blocks, AllocError> {
    let buffer = image(0, 4, 4, 16);
    let mut scene = Scene::new(alloc)?;
    scene.attach(7);
    let mut last = scene.commit(buffer, 64)?;
    for r in rects {
        scene.damage_buffer(*r)?;
        last = scene.commit(buffer, 64)?;
    }
    Ok(last)
}

// A buffer that returns after `others` commits of another one, each with damage of its row 1, then
// of row 2.
pub(crate) fn returning_buffer(alloc: Global, others: u32) -> Result<Blocks, AllocError> {
    let mut scene = Scene::new(alloc)?;
    scene.attach(7);
    scene.commit(image(0, 16, 4, 64), 512)?;
    scene.attach(8);
    for _ in 0..others {
        scene.damage_buffer(rect(0, 1, 16, 1))?;
        scene.commit(image(256, 16, 4, 64), 512)?;
    }
    scene.attach(7);
    scene.damage_buffer(rect(0, 2, 16, 1))?;
    scene.commit(image(0, 16, 4, 64), 512)
}

// The first commit of an image whose rows of one pixel are two blocks apart.
fn many_runs(alloc: Global, height: i32) -> Result<Blocks, AllocError> {
    let mut scene = Scene::new(alloc)?;
    scene.attach(7);
    scene.commit(image(0, 1, height, 128), 131_200)
}
