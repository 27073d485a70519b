//! Many rectangles at once, in no order: the same blocks as the plain program's.

use crate::Rect;
use crate::image::Image;
use crate::rect::Damage;
use crate::tests::plain::plain_block;
use crate::tests::scene::{Scene, image};
use crate::transform::Transform;
use crate::view::View;
use block_intervals::Blocks;
use std::alloc::{AllocError, Global};
use std::rt::HostRuntime;

// Rectangles that lie apart, over one another, within one another, beside one another, twice at one
// place, over the edges and outside.
const RECTS: [Rect; 12] = [
    Rect {
        x: 30,
        y: 11,
        w: 4,
        h: 3,
    },
    Rect {
        x: 2,
        y: 1,
        w: 6,
        h: 9,
    },
    Rect {
        x: 20,
        y: 5,
        w: 3,
        h: 1,
    },
    Rect {
        x: 4,
        y: 3,
        w: 2,
        h: 2,
    },
    Rect {
        x: 7,
        y: 2,
        w: 9,
        h: 3,
    },
    Rect {
        x: 2,
        y: 1,
        w: 6,
        h: 9,
    },
    Rect {
        x: 16,
        y: 2,
        w: 3,
        h: 3,
    },
    Rect {
        x: 36,
        y: -3,
        w: 9,
        h: 5,
    },
    Rect {
        x: -5,
        y: 12,
        w: 7,
        h: 70,
    },
    Rect {
        x: 50,
        y: 2,
        w: 3,
        h: 3,
    },
    Rect {
        x: 9,
        y: 8,
        w: 0,
        h: 3,
    },
    Rect {
        x: 30,
        y: 11,
        w: 5,
        h: 1,
    },
];

#[test]
fn scattered_rectangles(rt: HostRuntime) {
    for count in 0..13 {
        let agree = both_agree(rt.alloc(), count).expect(&rt, "memory");
        assert!(rt; agree, "{count} rectangles");
    }
}

// The second commit of an image of 40 by 15 pixels in rows of 192 bytes, from byte 40 on, of which
// so many rectangles are damaged.
fn both_agree(alloc: Global, count: usize) -> Result<bool, AllocError> {
    let buffer = image(40, 40, 15, 192);
    let mut scene = Scene::new(alloc)?;
    scene.attach(7);
    scene.commit(buffer, 3072)?;
    let mut damages = Vec::new(alloc);
    for r in RECTS.iter().take(count) {
        scene.damage_buffer(*r)?;
        damages.push(Damage::InBuffer(*r))?;
    }
    let blocks = scene.commit(buffer, 3072)?;
    Ok(are_plain(&blocks, &damages))
}

// The plain program finds the same blocks damaged.
fn are_plain(blocks: &Blocks, damages: &[Damage]) -> bool {
    let view = View {
        image: Image {
            offset: 40,
            width: 40,
            height: 15,
            stride: 192,
        },
        told: 3072,
        scale: 1,
        transform: Transform::Normal,
    };
    for block in 0..48 {
        if blocks.contains(block) != plain_block(view, damages, block) {
            return false;
        }
    }
    true
}
