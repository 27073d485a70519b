//! One file of a peer.

ghost use Rattle.std.specs.Prelude.{◌≡◌, ◌+◌, ◌^◌, ◌<◌, ◌≤◌, true, IfOk, OnOk};
ghost use Rattle.pool_words.specs.Views.{PoolId};
ghost use Rattle.shm_pools.specs.Files.{after_settle};
ghost use Rattle.script_peers.specs.Owning.{is_size, words_of, new_file, can_grow, grown};
ghost use Rattle.script_peers.specs.Owning.{has_words, written_from, filled, eyes_on};
ghost use Rattle.script_peers.specs.Owning.{IsStood, IsReceiptIn};
ghost use Rattle.script_peers.specs.Holding.{IsRewritten};

use pool_words::Receipt;
use shm_pools::{FileEyes, FilePen};
use std::alloc::{AllocError, Global};
use std::marker::Model;

/// The most segments of a file.
const MOST_SEGMENTS: u32 = 64;

/// A file of a peer, with its one pen.
#[derive(Drop)]
pub(crate) struct OwnFile {
    pen: FilePen,
    // How many words it has, and how many segments.
    words: u32,
    segments: u32,
}

impl Model for OwnFile {
    ghost use Rattle.shm_pools.specs.Files.{FileState};
    ghost use Rattle.script_peers.specs.Holding.{IsCounted};

    ghost Value = { FileState };

    ghost view = { λ file. file.pen };

    ghost invariant = { λ file. IsCounted file.words file.segments file.pen };
}

impl OwnFile {
    /// A file of one segment with this many bytes, which are all 0.
    pub(crate) fn new(alloc: Global, number: i32, bytes: u32) -> Result<OwnFile, AllocError>
        requires { is_size bytes ≡ true }
        ensures new { IfOk result (λ file. (pool : PoolId) × (file ≡ new_file pool number bytes)) }
        ensures stood { IfOk result IsStood }
    {
        let pen = FilePen::new(alloc, number, bytes)?;
        Ok(OwnFile {
            pen,
            words: bytes / 8,
            segments: 1,
        })
    }

    /// Whether it may get this size in bytes.
    fn can_grow(&self, bytes: u32) -> bool
        ensures { result ≡ can_grow bytes self.now }
    {
        is_size(bytes) && self.words < bytes / 8 && self.segments < MOST_SEGMENTS
    }

    /// Adds a segment of zeros, so that the file has this many bytes; a size that it can't get
    /// changes nothing.
    pub(crate) fn grow(&mut self, bytes: u32) -> Result<(), AllocError>
        ensures ok { OnOk result ((pool : PoolId) × (self.new ≡ grown pool bytes self.old)) }
        ensures number { self.new.number ≡ self.old.number }
        ensures stood { IsStood self.new }
    {
        if self.can_grow(bytes) {
            self.pen.grow(bytes)?;
            self.words = bytes / 8;
            self.segments += 1;
        }
        Ok(())
    }

    /// Whether it has so many words from the first one on.
    fn has_words(&self, first: u32, count: u32) -> bool
        ensures { result ≡ has_words first count self.now }
    {
        u64::from(first) + u64::from(count) <= u64::from(self.words)
    }

    /// Gives so many words from the first one on a value, one after another; words that it hasn't
    /// change nothing.
    ///
    /// # Errors
    /// Where a segment has had 2^62 writes, which counts as want of memory; the words before it
    /// are written then.
    pub(crate) fn fill(&mut self, first: u32, count: u32, value: u64) -> Result<(), AllocError>
        ensures ok { OnOk result (self.new ≡ filled first count value self.old) }
        ensures number { self.new.number ≡ self.old.number }
        ensures stood { IsStood self.new }
    {
        if self.has_words(first, count) {
            write_words(&mut self.pen, first, count, value)?;
        }
        Ok(())
    }

    /// One eye for each segment, at its count of writes so far.
    pub(crate) fn share(&mut self) -> Result<FileEyes, AllocError>
        ensures eyes { IfOk result (λ eyes. eyes ≡ eyes_on self.old) }
        ensures same { self.new ≡ self.old }
    {
        self.pen.share()
    }

    /// Takes in the loads of a receipt of a segment.
    pub(crate) fn settle(&mut self, segment: u32, receipt: Receipt)
        requires { IsReceiptIn segment receipt self.old }
        ensures settled { self.new ≡ after_settle self.old segment receipt }
        ensures stood { IsStood self.new }
    {
        match self.pen.settle(segment, receipt) {
            Ok(()) => {}
            Err(_) => unreachable!(),
        }
    }
}

/// Whether a file may have this size in bytes.
pub(crate) fn is_size(bytes: u32) -> bool
    ensures { result ≡ is_size bytes }
{
    64 <= bytes && bytes <= 67_108_864 && bytes % 64 == 0
}

/// Gives so many words of a file a value, one after another.
fn write_words(pen: &mut FilePen, first: u32, count: u32, value: u64) -> Result<(), AllocError>
    requires within { first + count ≤ words_of pen.old }
    requires fits { words_of pen.old < 2 ^ 32 }
    requires stood { IsStood pen.old }
    ensures ok { OnOk result (pen.new ≡ written_from first count value pen.old) }
    ensures same { IsRewritten pen.old pen.new }
{
    for step in 0..count {
        match pen.write(first + step, value) {
            Ok(()) => {}
            Err(_) => return Err(AllocError),
        }
    }
    Ok(())
}
