//! The sizes of the other side's files.

ghost use Rattle.std.specs.Prelude.{◌≡◌, [], OnOk, OnErr};
ghost use Rattle.mirror_pools.specs.Answers.{Tests, Answers};
ghost use Rattle.mirror_pools.specs.Sizes.{size_at, with_size, open_cause, extend_cause};
ghost use Rattle.mirror_pools.specs.Sizes.{fill_cause, IsSound};

use crate::checks::{check_range, sum_if_grown, sum_if_opened};
use crate::faults::MirrorFault;
use std::alloc::Global;
use std::collections::BTreeMap;
use std::marker::Model;
use transfer_frames::FrameCause;

/// The told sizes of the other side's files, by their rids: the tests of the frames that open,
/// extend and fill files. Contracts see the list of rids and sizes, rids rising.
///
/// A rid is the other side's choice, so a look-up takes logarithmic time whatever the rids are.
#[derive(Drop)]
pub struct Sizes {
    sizes: BTreeMap<i32, u32>,
    // The sum of all sizes.
    sum: u32,
}

impl Model for Sizes {
    ghost use Rattle.mirror_pools.specs.Sizes.{ToldSizes, IsSummed};

    ghost Value = { ToldSizes };

    ghost view = { λ s. s.sizes.entries };

    ghost invariant = { λ s. IsSummed s.sum s.sizes.entries };
}

impl Sizes {
    /// No file. Takes no memory.
    pub fn new(alloc: Global) -> Sizes
        ensures { result ≡ [] }
    {
        Sizes {
            sizes: BTreeMap::new(alloc),
            sum: 0,
        }
    }

    /// Opens a file of this size in bytes.
    ///
    /// # Errors
    /// RidInUse where the rid is open here, FileTooLarge above 67,108,864 bytes, FilesTooLarge
    /// where the sizes would sum above 268,435,456, in this order; or want of memory. The sizes are
    /// then unchanged.
    pub fn open(&mut self, rid: i32, size: u32) -> Result<(), MirrorFault>
        ensures answer { Answers result (open_cause rid size self.old) }
        ensures ok { OnOk result (self.new ≡ with_size rid size self.old) }
        ensures err { OnErr result (self.new ≡ self.old) }
        ensures sound { IsSound self.new }
    {
        let sum = sum_if_opened(self.size(rid), size, self.sum)?;
        self.sizes.insert(rid, size)?;
        self.sum = sum;
        Ok(())
    }

    /// Gives an open file this size in bytes, which is no smaller than its old one.
    ///
    /// # Errors
    /// RidUnknown where the rid isn't open here, ExtendSmaller where the size is below the old one,
    /// then FileTooLarge and FilesTooLarge as in `open`, with this size in the place of the old
    /// one; or want of memory. The sizes are then unchanged.
    pub fn extend(&mut self, rid: i32, size: u32) -> Result<(), MirrorFault>
        ensures answer { Answers result (extend_cause rid size self.old) }
        ensures ok { OnOk result (self.new ≡ with_size rid size self.old) }
        ensures err { OnErr result (self.new ≡ self.old) }
        ensures sound { IsSound self.new }
    {
        let sum = sum_if_grown(self.size(rid), size, self.sum)?;
        self.sizes.insert(rid, size)?;
        self.sum = sum;
        Ok(())
    }

    /// Tests a fill from `start` to before `end`; only where it ends matters. Takes no memory.
    ///
    /// # Errors
    /// RidUnknown where the rid isn't open here, FillOutside where the fill ends behind the size
    /// rounded up to 64.
    pub fn fill(&self, rid: i32, _start: u32, end: u32) -> Result<(), FrameCause>
        ensures answer { Tests result (fill_cause rid end self.now) }
        ensures sound { IsSound self.now }
    {
        check_range(self.size(rid), end)
    }

    // The size of a file.
    fn size(&self, rid: i32) -> Option<u32>
        ensures exact { result ≡ size_at rid self.now }
        ensures sound { IsSound self.now }
    {
        self.sizes.get(&rid).copied()
    }
}
