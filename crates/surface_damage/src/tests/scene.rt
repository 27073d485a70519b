//! One surface, and requests on it.

ghost use Rattle.surface_damage.specs.DueBytes.{Stands};

use crate::{BufferKey, Rect, Standing, Surfaces};
use block_intervals::{Blocks, Run};
use shm_pools::{Buffer, fits};
use std::alloc::{AllocError, Global};
use std::process::Abort;

const SURFACE: u32 = 5;

#[derive(Drop)]
pub(crate) struct Scene {
    surfaces: Surfaces,
}

impl Scene {
    pub(crate) fn new(alloc: Global) -> Result<Scene, AllocError> {
        let mut surfaces = Surfaces::new(alloc)?;
        surfaces.make(SURFACE)?;
        Ok(Scene { surfaces })
    }

    pub(crate) fn attach(&mut self, key: u64) {
        self.surfaces.attach(SURFACE, Some(BufferKey(key)));
    }

    pub(crate) fn scale(&mut self, scale: i32) {
        self.surfaces.set_scale(SURFACE, scale);
    }

    pub(crate) fn transform(&mut self, transform: i32) {
        self.surfaces.set_transform(SURFACE, transform);
    }

    pub(crate) fn damage(&mut self, r: Rect) -> Result<(), AllocError> {
        self.surfaces.damage(SURFACE, r)
    }

    pub(crate) fn damage_buffer(&mut self, r: Rect) -> Result<(), AllocError> {
        self.surfaces.damage_buffer(SURFACE, r)
    }

    pub(crate) fn commit(&mut self, buffer: Buffer, told: u32) -> Result<Blocks, AllocError> {
        Ok(
            self.surfaces
                .commit(SURFACE, &standing(buffer, told))?
                .blocks,
        )
    }

    pub(crate) fn commit_nothing(&mut self) -> Result<Blocks, AllocError> {
        Ok(self.surfaces.commit(SURFACE, &Standing::Nothing)?.blocks)
    }
}

// The buffer, where it fits.
pub(crate) fn standing(buffer: Buffer, told: u32) -> Standing
    ensures { Stands result }
{
    if fits(&buffer, told) {
        Standing::Fits { buffer, told }
    } else {
        Standing::Nothing
    }
}

// There was memory, and the runs are these.
pub(crate) fn expect_runs(rt: &impl Abort, blocks: Result<Blocks, AllocError>, runs: &[Run]) {
    let blocks = blocks.expect(rt, "memory");
    assert_eq!(rt; blocks.runs(), runs);
}

// An image of four bytes a pixel.
pub(crate) fn image(offset: i32, width: i32, height: i32, stride: i32) -> Buffer {
    Buffer {
        offset,
        width,
        height,
        stride,
        format: 0,
    }
}

pub(crate) fn rect(x: i32, y: i32, w: i32, h: i32) -> Rect {
    Rect { x, y, w, h }
}

pub(crate) fn run(first: u32, end: u32) -> Run {
    Run { first, end }
}
