//! Rectangles of damage, as clients send them.

ghost use Rattle.std.specs.Prelude.{◌≡◌};

/// A rectangle of `wl_surface.damage` or `wl_surface.damage_buffer`, as the client sent it.
#[derive(Clone, Copy, Debug, PartialEq, Eq, Drop)]
pub struct Rect {
    /// The left edge.
    pub x: i32,
    /// The top edge.
    pub y: i32,
    /// The width; 0 or less covers nothing.
    pub w: i32,
    /// The height; 0 or less covers nothing.
    pub h: i32,
}

/// One request of damage: in the buffer's coordinates, or in the surface's.
#[derive(Clone, Copy, Debug, PartialEq, Eq, Drop)]
pub enum Damage {
    /// In pixels of the buffer (`wl_surface.damage_buffer`).
    InBuffer(Rect),
    /// In the surface's own coordinates (`wl_surface.damage`).
    InSurface(Rect),
}

// One side of a rectangle: where it begins, and its length, which may be 0 or less.
#[derive(Clone, Copy)]
pub(crate) struct Side {
    pub(crate) low: i32,
    pub(crate) length: i32,
}

impl Rect {
    // The side from left to right.
    pub(crate) fn across(self) -> Side
        ensures { result ≡ record { low = self.x; length = self.w } }
    {
        Side {
            low: self.x,
            length: self.w,
        }
    }

    // The side from top to bottom.
    pub(crate) fn down(self) -> Side
        ensures { result ≡ record { low = self.y; length = self.h } }
    {
        Side {
            low: self.y,
            length: self.h,
        }
    }
}
