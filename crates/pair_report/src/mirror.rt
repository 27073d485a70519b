//! The bytes of one file of the other side.

ghost use Rattle.std.specs.Prelude.{◌≡◌, ◌+◌, ◌≤◌, length, IfOk, OnOk};
ghost use Rattle.mirror_pools.specs.Sizes.{rounded};
ghost use Rattle.mirror_pools.specs.Mirrors.{replaced, widened, mirror_opened, mirror_grown};
ghost use Rattle.mirror_pools.specs.Mirrors.{mirror_filled};

use std::alloc::{AllocError, Global};
use std::marker::Model;

/// The bytes of a file and its told size, whatever its frames say.
#[derive(Drop)]
pub(crate) struct Mirror {
    size: u32,
    bytes: Vec<u8>,
}

impl Model for Mirror {
    ghost use Rattle.mirror_pools.specs.Mirrors.{MirrorState};

    ghost Value = { MirrorState };

    ghost view = { λ m. record { size = m.size; bytes = m.bytes.items } };
}

impl Mirror {
    /// The mirror of a new file, all zero.
    pub(crate) fn new(alloc: Global, size: u32) -> Result<Mirror, AllocError>
        ensures { IfOk result (λ mirror. mirror ≡ mirror_opened size) }
    {
        let mut bytes = Vec::new(alloc);
        widen(&mut bytes, size)?;
        Ok(Mirror { size, bytes })
    }

    /// The told size in bytes.
    pub(crate) fn size(&self) -> u32
        ensures { result ≡ self.now.size }
    {
        self.size
    }

    /// All bytes.
    pub(crate) fn bytes(&self) -> &[u8]
        ensures { result.now ≡ self.now.bytes }
    {
        self.bytes.as_slice()
    }

    /// Keeps the bytes and puts zeros behind them, up to this size rounded up to whole blocks.
    pub(crate) fn grow(&mut self, size: u32) -> Result<(), AllocError>
        ensures { OnOk result (self.new ≡ mirror_grown size self.old) }
    {
        widen(&mut self.bytes, size)?;
        self.size = size;
        Ok(())
    }

    /// Replaces bytes from `start` on.
    pub(crate) fn fill(&mut self, start: u32, piece: &[u8]) -> Result<(), AllocError>
        ensures { OnOk result (self.new ≡ mirror_filled start piece.now self.old) }
    {
        replace(&mut self.bytes, start as usize, piece)
    }
}

// How many bytes whole blocks of 64 have that hold so many.
fn rounded(size: u32) -> usize
    ensures { result ≡ rounded size }
{
    (size as usize + 63) / 64 * 64
}

// Puts zeros behind the bytes, up to a size rounded up to whole blocks.
fn widen(bytes: &mut Vec<u8>, size: u32) -> Result<(), AllocError>
    ensures { OnOk result (bytes.new.items ≡ widened (rounded size) bytes.old.items) }
{
    let count = rounded(size);
    if bytes.len() < count {
        bytes.resize(count, 0)?;
    }
    Ok(())
}

// Copies a piece over the bytes from `start` on. Frames that were accepted end inside.
fn replace(bytes: &mut Vec<u8>, start: usize, piece: &[u8]) -> Result<(), AllocError>
    ensures { OnOk result (bytes.new.items ≡ replaced start piece.now bytes.old.items) }
{
    if start <= bytes.len() && piece.len() <= bytes.len() - start {
        copy_inside(bytes.as_mut_slice(), start, piece);
        Ok(())
    } else {
        bytes.truncate(start);
        bytes.extend_from_slice(piece)
    }
}

// Copies a piece that ends inside.
fn copy_inside(bytes: &mut [u8], start: usize, piece: &[u8])
    requires { start + length piece.now ≤ length bytes.old }
    ensures { bytes.new ≡ replaced start piece.now bytes.old }
{
    bytes[start..start + piece.len()].copy_from_slice(piece);
}
