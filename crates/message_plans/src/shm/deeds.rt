//! What each request does to what is known of shared memory.

ghost use Rattle.std.specs.Prelude.{◌≡◌, true, IfOk, OnOk, option_map};
ghost use Rattle.half_model.specs.Showing.{with_pool, with_buffer, with_surface, on_surface};
ghost use Rattle.half_model.specs.Showing.{key_of, after_deed, filling_of};
ghost use Rattle.half_model.specs.Shm.{with_role, buffer_at};
ghost use Rattle.half_model.specs.declared.roles.Role.TheVariants as roles;
ghost use Rattle.surface_damage.specs.Steps.{with_attached};
ghost use Rattle.message_plans.specs.Making.{passing_in};
ghost use Rattle.message_plans.specs.Blocks.{shows_nothing};

use super::Shm;
use super::showing::nothing;
use super::telling::file_passed;
use crate::filling::FilledBlocks;
use crate::made::PassedHandle;
use half_model::{Deed, Role, SentFile};
use shm_pools::Buffer;
use std::alloc::{AllocError, Global};
use surface_damage::BufferKey;
use wl_objects::Objects;

impl Shm {
    /// Does what a message for this object does, with the handle that it carries, and answers the
    /// blocks to fill. The told sizes are those with the message's own.
    ///
    /// # Errors
    /// Only where memory runs out.
    pub(crate) fn follow(
        &mut self,
        alloc: Global,
        objects: &Objects,
        object: u32,
        deed: &Deed,
        passing: Option<PassedHandle>,
    ) -> Result<FilledBlocks, AllocError>
        ensures filling { IfOk result (λ it. it ≡ filling_of objects.now.tracked object deed.now
            (option_map passing_in passing) self.old) }
        ensures ok { OnOk result (self.new ≡ after_deed objects.now.tracked object deed.now
            (option_map passing_in passing) self.old) }
    {
        match deed {
            Deed::Commit => self.commit(alloc, objects, object),
            Deed::Keymap { size: _ } => self.whole(alloc, file_passed(passing)),
            _ => {
                self.change(objects, object, deed, passing)?;
                Ok(nothing(alloc))
            }
        }
    }

    // What a message does that fills no block.
    fn change(
        &mut self,
        objects: &Objects,
        object: u32,
        deed: &Deed,
        passing: Option<PassedHandle>,
    ) -> Result<(), AllocError>
        requires { shows_nothing deed.now ≡ true }
        ensures ok { OnOk result (self.new ≡ after_deed objects.now.tracked object deed.now
            (option_map passing_in passing) self.old) }
    {
        match deed {
            Deed::MakePool { pool, size: _ } => self.make_pool(*pool, file_passed(passing)),
            Deed::MakeBuffer { buffer, shape } => {
                self.make_buffer(*buffer, *shape, self.pool_at(object))
            }
            Deed::MakeSurface { surface } => self.make_surface(*surface),
            Deed::EndSurface => {
                self.surfaces.destroy(object);
                Ok(())
            }
            Deed::Attach { buffer } => self.attach(objects, object, *buffer),
            Deed::DamageSurface { rect } => self.surfaces.damage(object, *rect),
            Deed::DamageBuffer { rect } => self.surfaces.damage_buffer(object, *rect),
            Deed::Scale { scale } => {
                self.surfaces.set_scale(object, *scale);
                Ok(())
            }
            Deed::Transform { transform } => {
                self.surfaces.set_transform(object, *transform);
                Ok(())
            }
            _ => Ok(()),
        }
    }

    // A pool of a file is made at an id.
    fn make_pool(&mut self, id: u32, file: Option<SentFile>) -> Result<(), AllocError>
        ensures ok { OnOk result (self.new ≡ with_pool id file self.old) }
    {
        if let Some(file) = file {
            self.roles.insert(id, Role::Pool { file })?;
        }
        Ok(())
    }

    // A buffer in a file is made at an id, with a key of its own; the keys have 64 bits.
    fn make_buffer(
        &mut self,
        id: u32,
        shape: Buffer,
        file: Option<SentFile>,
    ) -> Result<(), AllocError>
        ensures ok { OnOk result (self.new ≡ with_buffer id shape file self.old) }
    {
        let Some(file) = file else {
            return Ok(());
        };
        let Some(next) = self.keys.checked_add(1) else {
            return Err(AllocError);
        };
        let key = BufferKey(self.keys);
        self.roles.insert(id, Role::Buffer { key, file, shape })?;
        self.keys = next;
        Ok(())
    }

    // A surface is made at an id, in the place of an earlier one.
    fn make_surface(&mut self, id: u32) -> Result<(), AllocError>
        ensures ok { OnOk result (self.new ≡ with_surface id self.old) }
    {
        self.roles.insert(id, Role::Surface { buffer: 0 })?;
        self.surfaces.make(id)
    }

    // What lives at an id is attached to a surface: a buffer, or none.
    fn attach(&mut self, objects: &Objects, surface: u32, id: u32) -> Result<(), AllocError>
        ensures ok { OnOk result (self.new ≡ on_surface surface
            (with_attached (key_of (buffer_at objects.now.tracked id self.old)))
            (with_role surface (roles.Surface id) self.old)) }
    {
        let key = match self.buffer_at(objects, id) {
            Some(made) => Some(made.key),
            None => None,
        };
        self.roles.insert(surface, Role::Surface { buffer: id })?;
        self.surfaces.attach(surface, key);
        Ok(())
    }
}
