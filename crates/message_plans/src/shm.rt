//! What is known of the peer's shared memory.

ghost use Rattle.std.specs.Prelude.{◌≡◌, IfOk, option_map};
ghost use Rattle.half_model.specs.Shm.{no_shm, role_at, pool_at, buffer_at};
ghost use Rattle.message_plans.specs.Making.{made_of};

use crate::made::MadeBuffer;
use crate::told::Told;
use half_model::{Role, SentFile};
use std::alloc::{AllocError, Global};
use std::collections::BTreeMap;
use std::marker::Model;
use surface_damage::Surfaces;
use wl_objects::Objects;
use wl_tables::Interface;

mod deeds;
mod showing;
mod telling;

/// The told sizes of files, what was last made at each id, and the surfaces. An object that was
/// destroyed keeps its place, since the half does not hear of it.
#[derive(Drop)]
pub struct Shm {
    told: Told,
    roles: BTreeMap<u32, Role>,
    // How many buffers were made.
    keys: u64,
    surfaces: Surfaces,
}

impl Model for Shm {
    ghost use Rattle.half_model.specs.Shm.{ShmState};

    ghost Value = { ShmState };

    ghost view = { λ shm. record {
      told = shm.told;
      roles = shm.roles.entries;
      keys = shm.keys;
      surfaces = shm.surfaces;
    } };
}

impl Shm {
    /// Nothing was told or made.
    ///
    /// # Errors
    /// Only where memory runs out.
    pub fn new(alloc: Global) -> Result<Shm, AllocError>
        ensures { IfOk result (λ shm. shm ≡ no_shm) }
    {
        let surfaces = Surfaces::new(alloc)?;
        Ok(Shm {
            told: Told::new(alloc),
            roles: BTreeMap::new(alloc),
            keys: 0,
            surfaces,
        })
    }

    // What was last made at an id.
    fn role_at(&self, id: u32) -> Option<Role>
        ensures { result ≡ role_at id self.now }
    {
        self.roles.get(&id).copied()
    }

    /// The file of the pool that was made at an id.
    pub(crate) fn pool_at(&self, id: u32) -> Option<SentFile>
        ensures { result ≡ pool_at id self.now }
    {
        match self.role_at(id) {
            Some(Role::Pool { file }) => Some(file),
            _ => None,
        }
    }

    /// The buffer that lives at an id.
    pub(crate) fn buffer_at(&self, objects: &Objects, id: u32) -> Option<MadeBuffer>
        ensures { option_map made_of result ≡ buffer_at objects.now.tracked id self.now }
    {
        if objects.live(id) != Some(Interface::WlBuffer) {
            return None;
        }
        match self.role_at(id) {
            Some(Role::Buffer { key, file, shape }) => Some(MadeBuffer { key, file, shape }),
            _ => None,
        }
    }
}
