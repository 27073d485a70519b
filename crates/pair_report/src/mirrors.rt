//! The mirrors of the other side's files.

ghost use Rattle.std.specs.Prelude.{◌≡◌, [], OnOk};
ghost use Rattle.mirror_pools.specs.Mirrors.{with_opened, with_grown, with_filled};

use crate::mirror::Mirror;
use std::alloc::{AllocError, Global};
use std::collections::BTreeMap;
use std::marker::Model;

/// The mirrors by their rids. What a frame of a rid that isn't open would change is left.
#[derive(Drop)]
pub(crate) struct MirrorMap {
    mirrors: BTreeMap<i32, Mirror>,
    alloc: Global,
}

impl Model for MirrorMap {
    ghost use Rattle.mirror_pools.specs.Mirrors.{MirrorsState};

    ghost Value = { MirrorsState };

    ghost view = { λ m. m.mirrors.entries };
}

impl MirrorMap {
    /// No mirror. Takes no memory.
    pub(crate) fn new(alloc: Global) -> MirrorMap
        ensures { result ≡ [] }
    {
        MirrorMap {
            mirrors: BTreeMap::new(alloc),
            alloc,
        }
    }

    /// The mirrors by their rids.
    pub(crate) fn as_map(&self) -> &BTreeMap<i32, Mirror>
        ensures { result.now.entries ≡ self.now }
    {
        &self.mirrors
    }

    /// A file is opened.
    pub(crate) fn open(&mut self, rid: i32, size: u32) -> Result<(), AllocError>
        ensures { OnOk result (self.new ≡ with_opened rid size self.old) }
    {
        let mirror = Mirror::new(self.alloc, size)?;
        self.mirrors.insert(rid, mirror)?;
        Ok(())
    }

    /// A file grows.
    pub(crate) fn extend(&mut self, rid: i32, size: u32) -> Result<(), AllocError>
        ensures { OnOk result (self.new ≡ with_grown rid size self.old) }
    {
        if let Some(mirror) = self.mirrors.get_mut(&rid) {
            return mirror.grow(size);
        }
        Ok(())
    }

    /// A file has new bytes.
    pub(crate) fn fill(&mut self, rid: i32, start: u32, piece: &[u8]) -> Result<(), AllocError>
        ensures { OnOk result (self.new ≡ with_filled rid start piece.now self.old) }
    {
        if let Some(mirror) = self.mirrors.get_mut(&rid) {
            return mirror.fill(start, piece);
        }
        Ok(())
    }
}
