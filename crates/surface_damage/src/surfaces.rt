//! The surfaces of a session, and what each request changes.

ghost use Rattle.std.specs.Prelude.{◌≡◌, [], is_some, option_and_then};
ghost use Rattle.std.specs.Prelude.{IsOkAnd, IfOk, OnOk, OnErr};
ghost use Rattle.surface_damage.specs.DueBytes.{told_of, Stands};
ghost use Rattle.surface_damage.specs.Filled.{filled_for, IsFilling};
ghost use Rattle.surface_damage.specs.Requests.{after};
ghost use Rattle.surface_damage.specs.Requests.Request.{Make, Destroy, Attach, AddDamage};
ghost use Rattle.surface_damage.specs.Requests.Request.{SetScale, SetTransform, Commit};
ghost use Rattle.surface_damage.specs.Sound.{IsSound};
ghost use Rattle.surface_damage.specs.Steps.{find};

use crate::history::BufferKey;
use crate::rect::{Damage, Rect};
use crate::standing::{Due, Standing};
use crate::surface::Surface;
use block_intervals::Blocks;
use std::alloc::{AllocError, Global};
use std::collections::BTreeMap;
use std::marker::Model;

/// The surfaces of a session by object id, seen as the list of ids and states, ids rising.
///
/// Each call is one request. A request for an id that has no surface changes nothing. Of each
/// surface at most seven commits are remembered.
#[derive(Drop)]
pub struct Surfaces {
    surfaces: BTreeMap<u32, Surface>,
    alloc: Global,
}

impl Model for Surfaces {
    ghost use Rattle.std.specs.Prelude.{ℕ, List};
    ghost use Rattle.surface_damage.specs.History.{SurfaceState};
    ghost use Rattle.surface_damage.specs.Sound.{IsSound};

    ghost Value = { List (ℕ × SurfaceState) };

    ghost view = { λ s. s.surfaces.entries };

    ghost invariant = { λ s. IsSound s.surfaces.entries };
}

impl Surfaces {
    /// No surface. Takes no memory.
    pub fn new(alloc: Global) -> Result<Surfaces, AllocError>
        ensures none { IsOkAnd result (λ surfaces. surfaces ≡ []) }
        ensures sound { IfOk result IsSound }
    {
        Ok(Surfaces {
            surfaces: BTreeMap::new(alloc),
            alloc,
        })
    }

    /// Makes a surface (`wl_compositor.create_surface`), in the place of an earlier one of its id.
    ///
    /// # Errors
    /// Only where memory runs out; nothing is then changed.
    pub fn make(&mut self, id: u32) -> Result<(), AllocError>
        ensures ok { OnOk result (self.new ≡ after (Make id) self.old) }
        ensures err { OnErr result (self.new ≡ self.old) }
        ensures sound { IsSound self.new }
    {
        self.surfaces.insert(id, Surface::new(self.alloc))?;
        Ok(())
    }

    /// Forgets a surface that was destroyed (`wl_surface.destroy`).
    pub fn destroy(&mut self, id: u32)
        ensures step { self.new ≡ after (Destroy id) self.old }
        ensures sound { IsSound self.new }
    {
        self.surfaces.remove(&id);
    }

    /// Whether the id has a surface.
    pub fn has(&self, id: u32) -> bool
        ensures there { result ≡ is_some (find id self.now) }
        ensures sound { IsSound self.now }
    {
        self.surfaces.contains_key(&id)
    }

    /// Attaches a buffer, or none (`wl_surface.attach`).
    pub fn attach(&mut self, id: u32, buffer: Option<BufferKey>)
        ensures step { self.new ≡ after (Attach id buffer) self.old }
        ensures sound { IsSound self.new }
    {
        if let Some(surface) = self.surfaces.get_mut(&id) {
            surface.attach(buffer);
        }
    }

    /// Damage in the surface's coordinates (`wl_surface.damage`).
    ///
    /// # Errors
    /// Only where memory runs out; nothing is then changed.
    pub fn damage(&mut self, id: u32, r: Rect) -> Result<(), AllocError>
        ensures ok { OnOk result (self.new ≡ after (AddDamage id (Damage.InSurface r)) self.old) }
        ensures err { OnErr result (self.new ≡ self.old) }
        ensures sound { IsSound self.new }
    {
        self.add_damage(id, Damage::InSurface(r))
    }

    /// Damage in the buffer's pixels (`wl_surface.damage_buffer`).
    ///
    /// # Errors
    /// Only where memory runs out; nothing is then changed.
    pub fn damage_buffer(&mut self, id: u32, r: Rect) -> Result<(), AllocError>
        ensures ok { OnOk result (self.new ≡ after (AddDamage id (Damage.InBuffer r)) self.old) }
        ensures err { OnErr result (self.new ≡ self.old) }
        ensures sound { IsSound self.new }
    {
        self.add_damage(id, Damage::InBuffer(r))
    }

    fn add_damage(&mut self, id: u32, damage: Damage) -> Result<(), AllocError>
        ensures ok { OnOk result (self.new ≡ after (AddDamage id damage) self.old) }
        ensures err { OnErr result (self.new ≡ self.old) }
        ensures sound { IsSound self.new }
    {
        match self.surfaces.get_mut(&id) {
            Some(surface) => surface.damage(damage),
            None => Ok(()),
        }
    }

    /// Sets the buffer's scale (`wl_surface.set_buffer_scale`); 0 or less counts as 1.
    pub fn set_scale(&mut self, id: u32, scale: i32)
        ensures step { self.new ≡ after (SetScale id scale) self.old }
        ensures sound { IsSound self.new }
    {
        if let Some(surface) = self.surfaces.get_mut(&id) {
            surface.set_scale(scale);
        }
    }

    /// Sets the buffer's transform (`wl_surface.set_buffer_transform`); another than 0 to 7 counts
    /// as 0.
    pub fn set_transform(&mut self, id: u32, transform: i32)
        ensures step { self.new ≡ after (SetTransform id transform) self.old }
        ensures sound { IsSound self.new }
    {
        if let Some(surface) = self.surfaces.get_mut(&id) {
            surface.set_transform(transform);
        }
    }

    /// Commits what is pending (`wl_surface.commit`) and gives the blocks to carry: those that hold
    /// a due byte, or where these make more than 1,024 runs, all from the first to the last. None
    /// where the id has no surface, or the surface no buffer.
    ///
    /// # Errors
    /// Only where memory runs out; nothing is then changed, and the same commit can be made again.
    pub fn commit(&mut self, id: u32, current: &Standing) -> Result<Due, AllocError>
        requires { Stands current.now }
        ensures blocks { IfOk result (λ due.
            due.blocks ≡ filled_for (find id self.old) current.now) }
        ensures filling { IfOk result (λ due. IsFilling due.blocks (told_of current.now)) }
        ensures ok { OnOk result (self.new ≡ after (Commit id current.now) self.old) }
        ensures err { OnErr result (self.new ≡ self.old) }
        ensures sound { IsSound self.new }
    {
        match self.surfaces.get_mut(&id) {
            Some(surface) => {
                let blocks = surface.commit(current)?;
                Ok(Due { blocks })
            }
            None => Ok(Due {
                blocks: Blocks::new(self.alloc),
            }),
        }
    }

    /// The buffer that was attached last; None where none or null was, or the id has no surface.
    pub fn current(&self, id: u32) -> Option<BufferKey>
        ensures attached { result ≡ option_and_then (λ s. s.attached) (find id self.now) }
        ensures sound { IsSound self.now }
    {
        match self.surfaces.get(&id) {
            Some(surface) => surface.attached(),
            None => None,
        }
    }
}
