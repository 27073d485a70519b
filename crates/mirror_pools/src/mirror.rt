//! One mirror.

ghost use Rattle.std.specs.Prelude.{◌≡◌, ◌+◌, ◌≤◌, length, IfOk, OnOk, OnErr};
ghost use Rattle.mirror_pools.specs.Sizes.{rounded};
ghost use Rattle.mirror_pools.specs.Mirrors.{replaced, mirror_opened, mirror_grown, mirror_filled};

use crate::checks::rounded;
use std::alloc::{AllocError, Global};
use std::marker::Model;

/// The bytes of a file: as many as its told size rounded up to whole blocks.
#[derive(Drop)]
pub(crate) struct Mirror {
    size: u32,
    bytes: Vec<u8>,
}

impl Model for Mirror {
    ghost use Rattle.std.specs.Prelude.{◌≡◌, length};
    ghost use Rattle.mirror_pools.specs.Sizes.{rounded};
    ghost use Rattle.mirror_pools.specs.Mirrors.{MirrorState};

    ghost Value = { MirrorState };

    ghost view = { λ m. record { size = m.size; bytes = m.bytes.items } };

    ghost invariant = { λ m. length m.bytes.items ≡ rounded m.size };
}

impl Mirror {
    /// The mirror of a new file, all zero.
    pub(crate) fn new(alloc: Global, size: u32) -> Result<Mirror, AllocError>
        ensures { IfOk result (λ mirror. mirror ≡ mirror_opened size) }
    {
        let bytes = vec![in alloc; 0u8; rounded(size) as usize]?;
        Ok(Mirror { size, bytes })
    }

    /// The told size in bytes.
    pub(crate) fn size(&self) -> u32
        ensures { result ≡ self.now.size }
    {
        self.size
    }

    /// All bytes.
    pub(crate) fn bytes(&self) -> &[u8]
        ensures bytes { result.now ≡ self.now.bytes }
        ensures sized { length result.now ≡ rounded self.now.size }
    {
        self.bytes.as_slice()
    }

    /// Keeps the bytes and puts zeros behind them, for a size that is no smaller. Want of memory
    /// changes nothing.
    pub(crate) fn grow(&mut self, size: u32) -> Result<(), AllocError>
        requires { self.old.size ≤ size }
        ensures ok { OnOk result (self.new ≡ mirror_grown size self.old) }
        ensures err { OnErr result (self.new ≡ self.old) }
    {
        self.bytes.resize(rounded(size) as usize, 0)?;
        self.size = size;
        Ok(())
    }

    /// Replaces bytes from `start` on.
    pub(crate) fn fill(&mut self, start: u32, piece: &[u8])
        requires { start + length piece.now ≤ rounded self.old.size }
        ensures { self.new ≡ mirror_filled start piece.now self.old }
    {
        replace(self.bytes.as_mut_slice(), start as usize, piece);
    }
}

// Copies a piece over the bytes from `start` on.
fn replace(bytes: &mut [u8], start: usize, piece: &[u8])
    requires { start + length piece.now ≤ length bytes.old }
    ensures { bytes.new ≡ replaced start piece.now bytes.old }
{
    bytes[start..start + piece.len()].copy_from_slice(piece);
}
