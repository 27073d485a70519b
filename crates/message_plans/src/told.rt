//! The told sizes of the files that this side passed.

ghost use Rattle.std.specs.Prelude.{◌≡◌, ◌≤◌, [], Some, IfOk, OnOk, OnErr};
ghost use Rattle.mirror_pools.specs.Sizes.{size_at, with_size, total, MOST_FILES};
ghost use Rattle.mirror_pools.specs.Sizes.{IsSound};
ghost use Rattle.half_model.specs.Planning.{limit_refusal};
ghost use Rattle.half_model.specs.Shm.{told_at, grows, after_tell};
ghost use Rattle.message_plans.specs.Making.{tell_in};
ghost use Rattle.message_plans.specs.Telling.{limit_of, IsWithin, IsWithinLimits};

use crate::made::ToldSize;
use half_model::{HalfFault, Limit, SentFile};
use std::alloc::{AllocError, Global};
use std::collections::BTreeMap;
use std::marker::Model;

// The greatest told size of a file, and of all files of a side together, in bytes.
const FILE_LIMIT: u32 = 67_108_864;

const SUM_LIMIT: u32 = 268_435_456;

/// The told sizes in bytes, by rids.
#[derive(Drop)]
pub(crate) struct Told {
    sizes: BTreeMap<i32, u32>,
    // The sum of all sizes.
    sum: u32,
}

impl Model for Told {
    ghost use Rattle.mirror_pools.specs.Sizes.{ToldSizes, IsSummed};

    ghost Value = { ToldSizes };

    ghost view = { λ t. t.sizes.entries };

    ghost invariant = { λ t. IsSummed t.sum t.sizes.entries };
}

impl Told {
    /// No size was told. Takes no memory.
    pub(crate) fn new(alloc: Global) -> Told
        ensures { result ≡ [] }
    {
        Told {
            sizes: BTreeMap::new(alloc),
            sum: 0,
        }
    }

    /// The told size of a file, if one was told.
    pub(crate) fn size(&self, file: SentFile) -> Option<u32>
        ensures exact { result ≡ size_at file.rid self.now }
        ensures sound { IsSound self.now }
    {
        self.sizes.get(&file.rid).copied()
    }

    /// The told size of a file, 0 where none was told.
    pub(crate) fn at(&self, file: SentFile) -> u32
        ensures size { result ≡ told_at file.rid self.now }
        ensures least { result ≤ total self.now }
        ensures few { result ≤ MOST_FILES }
    {
        match self.size(file) {
            Some(size) => size,
            None => 0,
        }
    }

    /// Takes in the size that a message says, and answers whether the told size grows: where the
    /// file is new, or the size is greater than all before.
    ///
    /// # Errors
    /// `Limit` with `File` where the told size would pass 67,108,864 bytes, with `Files` where all
    /// together would pass 268,435,456; or want of memory. Nothing is then changed.
    pub(crate) fn tell(&mut self, tell: ToldSize) -> Result<bool, HalfFault>
        ensures limit { IsWithinLimits result (limit_refusal (Some (tell_in tell)) self.old) }
        ensures grew { IfOk result (λ grew. grew ≡ grows (tell_in tell) self.old) }
        ensures ok { OnOk result (self.new ≡ after_tell (Some (tell_in tell)) self.old) }
        ensures err { OnErr result (self.new ≡ self.old) }
    {
        if let Some(limit) = self.limit(tell) {
            return Err(HalfFault::Limit { which: limit });
        }
        if !self.grows(tell) {
            return Ok(false);
        }
        self.put(tell)?;
        Ok(true)
    }

    // Whether a told size grows by what a message says.
    fn grows(&self, tell: ToldSize) -> bool
        ensures { result ≡ grows (tell_in tell) self.now }
    {
        tell.is_new || self.at(tell.file) < tell.size
    }

    // The limit that a file would pass with this size, where it is the greatest that was told.
    fn limit(&self, tell: ToldSize) -> Option<Limit>
        ensures { result ≡ limit_of tell.file.rid tell.size self.now }
    {
        let old = self.at(tell.file);
        let size = old.max(tell.size);
        if size > FILE_LIMIT {
            return Some(Limit::File);
        }
        if self.sum - old + size > SUM_LIMIT {
            return Some(Limit::Files);
        }
        None
    }

    // A file has this told size, which passes no limit.
    fn put(&mut self, tell: ToldSize) -> Result<(), AllocError>
        requires { IsWithin tell.file.rid tell.size self.old }
        ensures ok { OnOk result (self.new ≡ with_size tell.file.rid tell.size self.old) }
        ensures err { OnErr result (self.new ≡ self.old) }
    {
        let sum = self.sum - self.at(tell.file) + tell.size;
        self.sizes.insert(tell.file.rid, tell.size)?;
        self.sum = sum;
        Ok(())
    }
}
