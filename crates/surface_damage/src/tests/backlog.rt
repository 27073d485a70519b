//! What earlier commits leave due: the backlog, a buffer made anew, another geometry, a commit
//! without a buffer, other formats.

use crate::tests::rows::returning_buffer;
use crate::tests::scene::{Scene, expect_runs, image, rect, run};
use block_intervals::Blocks;
use shm_pools::Buffer;
use std::alloc::{AllocError, Global};
use std::rt::HostRuntime;

#[test]
fn backlog_of_seven(rt: HostRuntime) {
    expect_runs(&rt, returning_buffer(rt.alloc(), 5), &[run(1, 3)]);
    expect_runs(&rt, returning_buffer(rt.alloc(), 6), &[run(1, 3)]);
    expect_runs(&rt, returning_buffer(rt.alloc(), 7), &[run(0, 4)]);
}

#[test]
fn what_makes_a_buffer_whole(rt: HostRuntime) {
    expect_runs(&rt, made_anew(rt.alloc()), &[run(0, 4)]);
    expect_runs(&rt, scaled_between(rt.alloc()), &[run(0, 4)]);
    expect_runs(&rt, nothing_between(rt.alloc()), &[run(0, 4)]);
    expect_runs(&rt, other_format(rt.alloc(), 192), &[run(1, 3)]);
    expect_runs(&rt, other_format(rt.alloc(), 193), &[run(1, 4)]);
}

// The buffer is destroyed after its first commit, and another made with its id.
fn made_anew(alloc: Global) -> Result<Blocks, AllocError> {
    let buffer = image(0, 16, 4, 64);
    let mut scene = Scene::new(alloc)?;
    scene.attach(7);
    scene.commit(buffer, 256)?;
    scene.attach(9);
    scene.damage_buffer(rect(0, 1, 16, 1))?;
    scene.commit(buffer, 256)
}

// Another scale is set for one commit.
fn scaled_between(alloc: Global) -> Result<Blocks, AllocError> {
    let buffer = image(0, 16, 4, 64);
    let mut scene = Scene::new(alloc)?;
    scene.attach(7);
    scene.commit(buffer, 256)?;
    scene.scale(2);
    scene.commit(buffer, 256)?;
    scene.scale(1);
    scene.damage_buffer(rect(0, 1, 16, 1))?;
    scene.commit(buffer, 256)
}

// The buffer does not stand at one commit.
fn nothing_between(alloc: Global) -> Result<Blocks, AllocError> {
    let buffer = image(0, 16, 4, 64);
    let mut scene = Scene::new(alloc)?;
    scene.attach(7);
    scene.commit(buffer, 256)?;
    scene.commit_nothing()?;
    scene.damage_buffer(rect(0, 1, 16, 1))?;
    scene.commit(buffer, 256)
}

// The second commit of a buffer of another format, with no damage.
fn other_format(alloc: Global, told: u32) -> Result<Blocks, AllocError> {
    let buffer = Buffer {
        offset: 100,
        width: 1,
        height: -1,
        stride: 0,
        format: 7,
    };
    let mut scene = Scene::new(alloc)?;
    scene.attach(7);
    scene.commit(buffer, told)?;
    scene.commit(buffer, told)
}
