//! Every transform with every small scale, both kinds of damage: the same blocks as the plain
//! program's.

use crate::image::Image;
use crate::rect::{Damage, Rect};
use crate::tests::plain::plain_block;
use crate::tests::scene::{Scene, image, rect};
use crate::transform::{read_scale, read_transform};
use crate::view::View;
use block_intervals::Blocks;
use std::alloc::{AllocError, Global};
use std::rt::HostRuntime;

#[test]
fn transforms_and_scales(rt: HostRuntime) {
    for transform in 0..8 {
        for scale in 1..4 {
            for r in [
                rect(3, 1, 5, 4),
                rect(-2, 2, 10, 3),
                rect(17, -1, 30, 2),
                rect(0, 5, i32::MAX, 1),
            ] {
                let agree = both_agree(rt.alloc(), transform, scale, r).expect(&rt, "memory");
                assert!(rt; agree, "transform {transform} scale {scale}");
            }
        }
    }
}

fn both_agree(alloc: Global, transform: i32, scale: i32, r: Rect) -> Result<bool, AllocError> {
    let on_surface = Damage::InSurface(r);
    let in_buffer = Damage::InBuffer(r);
    let first = damaged(alloc, transform, scale, on_surface)?;
    let second = damaged(alloc, transform, scale, in_buffer)?;
    Ok(
        are_plain(&first, transform, scale, on_surface)
            && are_plain(&second, transform, scale, in_buffer),
    )
}

// The second commit of an image of 40 by 10 pixels in rows of 192 bytes, from byte 40 on.
fn damaged(
    alloc: Global,
    transform: i32,
    scale: i32,
    damage: Damage,
) -> Result<Blocks, AllocError> {
    let buffer = image(40, 40, 10, 192);
    let mut scene = Scene::new(alloc)?;
    scene.transform(transform);
    scene.scale(scale);
    scene.attach(7);
    scene.commit(buffer, 2048)?;
    match damage {
        Damage::InBuffer(r) => scene.damage_buffer(r)?,
        Damage::InSurface(r) => scene.damage(r)?,
    }
    scene.commit(buffer, 2048)
}

// The plain program finds the same blocks damaged.
fn are_plain(blocks: &Blocks, transform: i32, scale: i32, damage: Damage) -> bool {
    let view = View {
        image: Image {
            offset: 40,
            width: 40,
            height: 10,
            stride: 192,
        },
        told: 2048,
        scale: read_scale(scale),
        transform: read_transform(transform),
    };
    for block in 0..32 {
        if blocks.contains(block) != plain_block(view, &[damage], block) {
            return false;
        }
    }
    true
}
