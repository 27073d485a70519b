//! The mirrors of the other side's files.

ghost use Rattle.std.specs.Prelude.{◌≡◌, ◌+◌, [], None, length, option_map, OnOk, OnErr};
ghost use Rattle.mirror_pools.specs.Answers.{Tests};
ghost use Rattle.mirror_pools.specs.Sizes.{rounded, size_at, open_cause, extend_cause, fill_cause};
ghost use Rattle.mirror_pools.specs.Sizes.{IsSound};
ghost use Rattle.mirror_pools.specs.Mirrors.{sizes_of, bytes_at, with_opened, with_grown};
ghost use Rattle.mirror_pools.specs.Mirrors.{with_filled};

use crate::checks::{check_range, sum_if_grown, sum_if_opened};
use crate::mirror::Mirror;
use std::alloc::{AllocError, Global};
use std::collections::BTreeMap;
use std::marker::Model;
use transfer_frames::FrameCause;

/// The bytes of the other side's files, by their rids. Contracts see the list of rids, sizes and
/// bytes, rids rising.
///
/// A rid is the other side's choice, so a look-up takes logarithmic time whatever the rids are.
#[derive(Drop)]
pub struct Mirrors {
    mirrors: BTreeMap<i32, Mirror>,
    // The sum of all told sizes.
    sum: u32,
    alloc: Global,
}

impl Model for Mirrors {
    ghost use Rattle.mirror_pools.specs.Sizes.{IsSummed};
    ghost use Rattle.mirror_pools.specs.Mirrors.{MirrorsState, sizes_of};

    ghost Value = { MirrorsState };

    ghost view = { λ m. m.mirrors.entries };

    ghost invariant = { λ m. IsSummed m.sum (sizes_of m.mirrors.entries) };
}

impl Mirrors {
    /// No mirror. Takes no memory.
    pub fn new(alloc: Global) -> Mirrors
        ensures { result ≡ [] }
    {
        Mirrors {
            mirrors: BTreeMap::new(alloc),
            sum: 0,
            alloc,
        }
    }

    /// Opens the mirror of a file of this size in bytes: as many zeros, rounded up to a multiple of
    /// 64.
    ///
    /// # Errors
    /// Only where memory runs out; the mirrors are then unchanged.
    pub fn open(&mut self, rid: i32, size: u32) -> Result<(), AllocError>
        requires { open_cause rid size (sizes_of self.old) ≡ None }
        ensures ok { OnOk result (self.new ≡ with_opened rid size self.old) }
        ensures err { OnErr result (self.new ≡ self.old) }
    {
        let mirror = Mirror::new(self.alloc, size)?;
        self.mirrors.insert(rid, mirror)?;
        self.sum += size;
        Ok(())
    }

    /// Gives a mirror this size in bytes: its bytes stay, and zeros stand behind them.
    ///
    /// # Errors
    /// Only where memory runs out; the mirrors are then unchanged.
    pub fn extend(&mut self, rid: i32, size: u32) -> Result<(), AllocError>
        requires { extend_cause rid size (sizes_of self.old) ≡ None }
        ensures ok { OnOk result (self.new ≡ with_grown rid size self.old) }
        ensures err { OnErr result (self.new ≡ self.old) }
    {
        let mirror = self.mirrors.get_mut(&rid).unwrap();
        let old = mirror.size();
        mirror.grow(size)?;
        self.sum = self.sum - old + size;
        Ok(())
    }

    /// Replaces the bytes of a mirror from `start` on. Takes no memory.
    pub fn fill(&mut self, rid: i32, start: u32, bytes: &[u8])
        requires { fill_cause rid (start + length bytes.now) (sizes_of self.old) ≡ None }
        ensures { self.new ≡ with_filled rid start bytes.now self.old }
    {
        let mirror = self.mirrors.get_mut(&rid).unwrap();
        mirror.fill(start, bytes);
    }

    /// All bytes of a mirror, as many as its told size rounded up to a multiple of 64; None exactly
    /// where the rid isn't open here.
    pub fn bytes(&self, rid: i32) -> Option<&[u8]>
        ensures exact { option_map (λ bytes. bytes.now) result ≡ bytes_at rid self.now }
        ensures sized { option_map (λ bytes. length bytes.now) result
            ≡ option_map rounded (size_at rid (sizes_of self.now)) }
    {
        match self.mirrors.get(&rid) {
            Some(mirror) => Some(mirror.bytes()),
            None => None,
        }
    }

    /// The told size of a mirror in bytes; None exactly where the rid isn't open here.
    pub fn size(&self, rid: i32) -> Option<u32>
        ensures exact { result ≡ size_at rid (sizes_of self.now) }
        ensures sound { IsSound (sizes_of self.now) }
    {
        match self.mirrors.get(&rid) {
            Some(mirror) => Some(mirror.size()),
            None => None,
        }
    }

    /// Tests whether `open` may be called; the causes are those of `Sizes::open`. Takes no memory.
    pub fn check_open(&self, rid: i32, size: u32) -> Result<(), FrameCause>
        ensures { Tests result (open_cause rid size (sizes_of self.now)) }
    {
        sum_if_opened(self.size(rid), size, self.sum)?;
        Ok(())
    }

    /// Tests whether `extend` may be called; the causes are those of `Sizes::extend`. Takes no
    /// memory.
    pub fn check_extend(&self, rid: i32, size: u32) -> Result<(), FrameCause>
        ensures { Tests result (extend_cause rid size (sizes_of self.now)) }
    {
        sum_if_grown(self.size(rid), size, self.sum)?;
        Ok(())
    }

    /// Tests whether `fill` may be called with bytes that end here; the causes are those of
    /// `Sizes::fill`. Takes no memory.
    pub fn check_fill(&self, rid: i32, end: u32) -> Result<(), FrameCause>
        ensures { Tests result (fill_cause rid end (sizes_of self.now)) }
    {
        check_range(self.size(rid), end)
    }
}
