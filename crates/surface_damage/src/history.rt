//! What a surface remembers of its commits.

ghost use Rattle.std.specs.Prelude.{◌≡◌};
ghost use Rattle.surface_damage.specs.History.{same_geometry, shows, has_geometry, number_of};

use crate::rect::Damage;
use crate::transform::Transform;
use std::marker::Model;

/// One creation of a buffer; a buffer that is made anew with the same object id has another key.
#[derive(Clone, Copy, Debug, PartialEq, Eq, Drop)]
pub struct BufferKey(pub u64);

// How the buffer of a commit was shown, and its sides in pixels.
#[derive(Clone, Copy)]
pub(crate) struct Geometry {
    pub(crate) scale: u32,
    pub(crate) transform: Transform,
    pub(crate) width: i32,
    pub(crate) height: i32,
}

impl Geometry {
    pub(crate) fn is_same(self, other: Geometry) -> bool
        ensures { result ≡ same_geometry self other }
    {
        self.scale == other.scale
            && self.transform as u8 == other.transform as u8
            && self.width == other.width
            && self.height == other.height
    }
}

// The living buffer that fits of a commit, and its geometry.
#[derive(Clone, Copy)]
pub(crate) struct Shown {
    pub(crate) buffer: BufferKey,
    pub(crate) geometry: Geometry,
}

// One commit: what it showed, and the damage since the commit before.
#[derive(Drop)]
pub(crate) struct Commit {
    pub(crate) content: Option<Shown>,
    pub(crate) damage: Vec<Damage>,
}

impl Model for Commit {
    ghost use Rattle.surface_damage.specs.History.{Committed};

    ghost Value = { Committed };

    ghost view = { λ commit. record { content = commit.content; damage = commit.damage.items } };
}

impl Commit {
    pub(crate) fn shows(&self, key: BufferKey) -> bool
        ensures { result ≡ shows key self.now.content }
    {
        match self.content {
            Some(shown) => shown.buffer.0 == key.0,
            None => false,
        }
    }

    pub(crate) fn has_geometry(&self, geometry: Geometry) -> bool
        ensures { result ≡ has_geometry geometry self.now.content }
    {
        match self.content {
            Some(shown) => geometry.is_same(shown.geometry),
            None => false,
        }
    }

    pub(crate) fn damage(&self) -> &[Damage]
        ensures { result.now ≡ self.now.damage }
    {
        self.damage.as_slice()
    }
}
