//! Commits of a surface.

ghost use Rattle.surface_damage.specs.DueBytes.{Stands};
ghost use Rattle.std.specs.Prelude.{IfSome};

use shm_pools::{Buffer, fits};
use std::alloc::{AllocError, Global};
use surface_damage::{BufferKey, Rect, Standing, Surfaces};

// The surface of all commits.
const SURFACE: u32 = 1;

// The greatest side of an image, in pixels.
const MOST_PIXELS: u32 = 16_384;

/// The sides of an image or of a rectangle, in pixels.
#[derive(Clone, Copy, Debug, PartialEq, Eq)]
pub struct Sides {
    /// From left to right.
    pub width: u32,
    /// From top to bottom.
    pub height: u32,
}

/// An image with damage that lies about in no order.
#[derive(Clone, Copy, Debug, PartialEq, Eq)]
pub struct Scatter {
    /// The image.
    pub image: Sides,
    /// Each rectangle.
    pub rect: Sides,
    /// How many rectangles.
    pub count: u32,
}

/// Commits a surface so many times, each time with ten rectangles of 64 by 64 pixels of damage, and
/// answers how many runs of blocks came out in all; 0 where the image is too large.
pub fn runs_of_commits(alloc: Global, image: Sides, times: u32) -> Result<u64, AllocError> {
    match standing(image) {
        Some(standing) => runs_of_standing(alloc, image, &standing, times),
        None => Ok(0),
    }
}

// The same of a buffer that stands.
fn runs_of_standing(
    alloc: Global,
    image: Sides,
    standing: &Standing,
    times: u32,
) -> Result<u64, AllocError>
    requires { Stands standing.now }
{
    let mut surfaces = shown_surface(alloc)?;
    let mut runs: u64 = 0;
    for commit in 0..times {
        for k in 0..10 {
            let place = commit.wrapping_mul(37).wrapping_add(k * 1009);
            let rect = Rect {
                x: offset(place, image.width),
                y: offset(place.wrapping_mul(7), image.height),
                w: 64,
                h: 64,
            };
            surfaces.damage_buffer(SURFACE, rect)?;
        }
        let due = surfaces.commit(SURFACE, standing)?;
        runs = runs.wrapping_add(due.blocks.len() as u64);
    }
    Ok(runs)
}

/// Commits a surface twice, the second time with the damage, and answers how many runs of blocks
/// that makes; 0 where the image is too large.
pub fn runs_of_scatter(alloc: Global, scatter: Scatter) -> Result<u64, AllocError> {
    match standing(scatter.image) {
        Some(standing) => runs_of_damage(alloc, scatter, &standing),
        None => Ok(0),
    }
}

// The same of a buffer that stands.
fn runs_of_damage(alloc: Global, scatter: Scatter, standing: &Standing) -> Result<u64, AllocError>
    requires { Stands standing.now }
{
    let mut surfaces = shown_surface(alloc)?;
    surfaces.commit(SURFACE, standing)?;
    for k in 0..scatter.count {
        surfaces.damage_buffer(SURFACE, scattered(scatter, k))?;
    }
    let due = surfaces.commit(SURFACE, standing)?;
    Ok(due.blocks.len() as u64)
}

// The rectangle of a number: two that follow each other lie far apart.
fn scattered(scatter: Scatter, k: u32) -> Rect {
    let across = scatter.image.width.saturating_sub(scatter.rect.width);
    let down = scatter.image.height.saturating_sub(scatter.rect.height);
    Rect {
        x: offset(k.wrapping_mul(2_654_435_761) >> 8, across.saturating_add(1)),
        y: offset(k.wrapping_mul(2_246_822_519) >> 8, down.saturating_add(1)),
        w: scatter.rect.width.min(MOST_PIXELS) as i32,
        h: scatter.rect.height.min(MOST_PIXELS) as i32,
    }
}

// A place below `count`, or 0 where there is none.
fn offset(place: u32, count: u32) -> i32 {
    place.checked_rem(count).unwrap_or(0).min(MOST_PIXELS) as i32
}

// A buffer of an image from the first byte of its file on, in a file that is just as long.
fn standing(image: Sides) -> Option<Standing>
    ensures { IfSome result Stands }
{
    if image.width > MOST_PIXELS || image.height > MOST_PIXELS {
        return None;
    }
    let buffer = Buffer {
        offset: 0,
        width: image.width as i32,
        height: image.height as i32,
        stride: (4 * image.width) as i32,
        format: 0,
    };
    let told = 4 * image.width * image.height;
    if fits(&buffer, told) {
        Some(Standing::Fits { buffer, told })
    } else {
        None
    }
}

// One surface with a buffer attached.
fn shown_surface(alloc: Global) -> Result<Surfaces, AllocError> {
    let mut surfaces = Surfaces::new(alloc)?;
    surfaces.make(SURFACE)?;
    surfaces.attach(SURFACE, Some(BufferKey(1)));
    Ok(surfaces)
}
