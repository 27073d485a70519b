//! The plain program: which blocks hold a damaged byte, by one test for each rectangle, pixel and
//! byte.

ghost use Rattle.std.specs.Prelude.{◌≡◌, ◌<◌, ◌^◌, ◌*◌, ◌+◌};
ghost use Rattle.surface_damage.specs.Images.{in_pixels, holds};
ghost use Rattle.surface_damage.specs.Pixels.{place, in_span, in_rect};
ghost use Rattle.surface_damage.specs.Views.{IsShown, covers_in, some_covers};

use crate::rect::{Damage, Rect, Side};
use crate::transform::Transform;
use crate::view::View;

// A place on the surface, in buffer pixels.
#[derive(Clone, Copy)]
struct Point {
    u: u64,
    v: u64,
}

fn plain_place(view: View, bx: u64, by: u64) -> Point
    requires column { bx < view.image.width }
    requires row { by < view.image.height }
    ensures u { result.u ≡ (place view.transform view.image.width view.image.height bx by).u }
    ensures v { result.v ≡ (place view.transform view.image.width view.image.height bx by).v }
{
    let (right, bottom) = (view.image.width - 1, view.image.height - 1);
    match view.transform {
        Transform::Normal => Point { u: bx, v: by },
        Transform::Turned90 => Point {
            u: bottom - by,
            v: bx,
        },
        Transform::Turned180 => Point {
            u: right - bx,
            v: bottom - by,
        },
        Transform::Turned270 => Point {
            u: by,
            v: right - bx,
        },
        Transform::Flipped => Point {
            u: right - bx,
            v: by,
        },
        Transform::FlippedTurned90 => Point { u: by, v: bx },
        Transform::FlippedTurned180 => Point {
            u: bx,
            v: bottom - by,
        },
        Transform::FlippedTurned270 => Point {
            u: bottom - by,
            v: right - bx,
        },
    }
}

fn plain_along(side: Side, n: u64) -> bool
    requires { n < 2 ^ 62 }
    ensures { result ≡ in_span side.low side.length n }
{
    let low = i64::from(side.low);
    low <= n as i64 && (n as i64) < low + i64::from(side.length)
}

fn plain_in_rect(rect: Rect, x: u64, y: u64) -> bool
    requires x { x < 2 ^ 62 }
    requires y { y < 2 ^ 62 }
    ensures { result ≡ in_rect rect x y }
{
    plain_along(rect.across(), x) && plain_along(rect.down(), y)
}

fn plain_covers(view: View, damage: Damage, bx: u64, by: u64) -> bool
    requires shown { IsShown view }
    requires small { (view.image.width < 2 ^ 32) × (view.image.height < 2 ^ 32) }
    requires column { bx < view.image.width }
    requires row { by < view.image.height }
    ensures { result ≡ covers_in view bx by damage }
{
    match damage {
        Damage::InBuffer(rect) => plain_in_rect(rect, bx, by),
        Damage::InSurface(rect) => {
            let at = plain_place(view, bx, by);
            let scale = u64::from(view.scale);
            plain_in_rect(rect, at.u / scale, at.v / scale)
        }
    }
}

fn plain_pixel(view: View, damages: &[Damage], bx: u64, by: u64) -> bool
    requires shown { IsShown view }
    requires small { (view.image.width < 2 ^ 32) × (view.image.height < 2 ^ 32) }
    requires column { bx < view.image.width }
    requires row { by < view.image.height }
    ensures { result ≡ some_covers view damages.now bx by }
{
    damages
        .iter()
        .any(|damage| plain_covers(view, *damage, bx, by))
}

fn plain_byte(view: View, damages: &[Damage], at: u64) -> bool
    requires shown { IsShown view }
    requires small { (view.image.width < 2 ^ 32) × (view.image.height < 2 ^ 32) }
    ensures { result ≡ in_pixels view.image (some_covers view damages.now) at }
{
    let image = view.image;
    if at < image.offset {
        return false;
    }
    let row = (at - image.offset) / image.stride;
    let place = (at - image.offset) % image.stride;
    row < image.height && place < 4 * image.width && plain_pixel(view, damages, place / 4, row)
}

// Whether the block holds a byte of a pixel that some of the damage covers.
pub(crate) fn plain_block(view: View, damages: &[Damage], block: u32) -> bool
    requires shown { IsShown view }
    requires small { (view.image.width < 2 ^ 32) × (view.image.height < 2 ^ 32) }
    ensures { result ≡ holds (in_pixels view.image (some_covers view damages.now)) block }
{
    for k in 0..64 {
        if plain_byte(view, damages, 64 * u64::from(block) + k) {
            return true;
        }
    }
    false
}
