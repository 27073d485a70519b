//! The part of an image that one rectangle of damage covers.

ghost use Rattle.std.specs.Prelude.{◌≡◌, ℕ, ◌<◌, ◌↔◌, IsTrue};
ghost use Rattle.surface_damage.specs.Pixels.{covers};
ghost use Rattle.surface_damage.specs.Areas.{holds_pixel, IsWithin};
ghost use Rattle.surface_damage.specs.Views.{covers_in};

use crate::interval::{Interval, from_end, from_start};
use crate::rect::{Damage, Rect};
use crate::transform::Transform;
use crate::view::View;

// The pixels in these columns and these rows.
#[derive(Clone, Copy)]
pub(crate) struct Area {
    pub(crate) columns: Interval,
    pub(crate) rows: Interval,
}

impl Area {
    // The pixels that the damage covers.
    pub(crate) fn damaged(view: View, damage: Damage) -> Area
        requires { 0 < view.scale }
        ensures pixels { (bx by : ℕ) → bx < view.image.width → by < view.image.height
            → holds_pixel result bx by ≡ covers_in view bx by damage }
        ensures within { IsWithin result view.image.width view.image.height }
    {
        match damage {
            Damage::InBuffer(rect) => Area::in_buffer(view, rect),
            Damage::InSurface(rect) => Area::on_surface(view, rect),
        }
    }

    fn in_buffer(view: View, rect: Rect) -> Area
        ensures pixels { (bx by : ℕ) → bx < view.image.width → by < view.image.height
            → holds_pixel result bx by ≡ covers_in view bx by (Damage.InBuffer rect) }
        ensures within { IsWithin result view.image.width view.image.height }
    {
        Area {
            columns: from_start(rect.across(), 1, view.image.width),
            rows: from_start(rect.down(), 1, view.image.height),
        }
    }

    // The rectangle's two sides, each along the side of the image that it lies on, and from its end
    // where it is turned.
    fn on_surface(view: View, rect: Rect) -> Area
        requires { 0 < view.scale }
        ensures pixels { (bx by : ℕ) → bx < view.image.width → by < view.image.height
            → holds_pixel result bx by ≡ covers_in view bx by (Damage.InSurface rect) }
        ensures within { IsWithin result view.image.width view.image.height }
    {
        let (scale, width, height) = (view.scale, view.image.width, view.image.height);
        let (across, down) = (rect.across(), rect.down());
        match view.transform {
            Transform::Normal => Area {
                columns: from_start(across, scale, width),
                rows: from_start(down, scale, height),
            },
            Transform::Turned90 => Area {
                columns: from_start(down, scale, width),
                rows: from_end(across, scale, height),
            },
            Transform::Turned180 => Area {
                columns: from_end(across, scale, width),
                rows: from_end(down, scale, height),
            },
            Transform::Turned270 => Area {
                columns: from_end(down, scale, width),
                rows: from_start(across, scale, height),
            },
            Transform::Flipped => Area {
                columns: from_end(across, scale, width),
                rows: from_start(down, scale, height),
            },
            Transform::FlippedTurned90 => Area {
                columns: from_start(down, scale, width),
                rows: from_start(across, scale, height),
            },
            Transform::FlippedTurned180 => Area {
                columns: from_start(across, scale, width),
                rows: from_end(down, scale, height),
            },
            Transform::FlippedTurned270 => Area {
                columns: from_end(down, scale, width),
                rows: from_end(across, scale, height),
            },
        }
    }

    // Whether it has a pixel.
    pub(crate) fn has_pixels(self) -> bool
        ensures { IsTrue result
            ↔ ((self.columns.first < self.columns.end) × (self.rows.first < self.rows.end)) }
    {
        self.columns.first < self.columns.end && self.rows.first < self.rows.end
    }
}
