//! The one writer of a file of shared memory.

ghost use Rattle.std.specs.Prelude.{◌≡◌, ◌↔◌, ◌*◌, ◌^◌, ◌<◌, length, map, sum};
ghost use Rattle.std.specs.Prelude.{All, IsOk, IsErr, IfOk, OnOk, IfErr, OnErr};
ghost use Rattle.pool_words.specs.History.{HasStood};
ghost use Rattle.pool_words.specs.Views.{note_of};
ghost use Rattle.shm_pools.specs.Files.{IsSize, IsNew, HasGrown, IsWhole, pen_sizes, pen_at};
ghost use Rattle.shm_pools.specs.Files.{pool_number, segment_of, after_write, after_settle};

use crate::notes::{EyeList, FileEyes};
use crate::places::place_of;
use pool_words::{Eye, Pen, Receipt, Stranger, WritesSpent, new_pool};
use std::alloc::{AllocError, Global};
use std::marker::Model;

/// The one writer of a file. Contracts see its number, and the pens of its segments in order.
#[derive(Drop)]
pub struct FilePen {
    number: i32,
    bytes: u32,
    pens: Vec<Pen>,
    alloc: Global,
}

impl Model for FilePen {
    ghost use Rattle.std.specs.Prelude.{◌≡◌, ◌*◌, sum};
    ghost use Rattle.shm_pools.specs.Files.{FileState, IsWhole, pen_sizes};

    ghost Value = { FileState };

    ghost view = { λ f. record { number = f.number; segments = f.pens.items } };

    ghost invariant = { λ f. (f.bytes ≡ 8 * sum (pen_sizes f.pens.items))
        × IsWhole (record { number = f.number; segments = f.pens.items }) };
}

impl FilePen {
    /// A file of one segment with this many bytes, a multiple of 64, which are all 0.
    pub fn new(alloc: Global, number: i32, bytes: u32) -> Result<FilePen, AllocError>
        requires { IsSize bytes }
        ensures new { IfOk result (λ f. IsNew f number bytes) }
        ensures whole { IfOk result IsWhole }
    {
        let pen = new_pool(alloc, pool_number(number, 0), bytes / 8)?;
        let mut pens = Vec::new(alloc);
        pens.push(pen)?;
        Ok(FilePen {
            number,
            bytes,
            pens,
            alloc,
        })
    }

    /// The number that `new` was given.
    pub fn number(&self) -> i32
        ensures { result ≡ self.now.number }
    {
        self.number
    }

    /// Adds a segment of zeros, so that the file has this many bytes, a greater multiple of 64.
    pub fn grow(&mut self, bytes: u32) -> Result<(), AllocError>
        requires size { IsSize bytes }
        requires greater { 8 * sum (pen_sizes self.old.segments) < bytes }
        requires room { length self.old.segments < 64 }
        ensures ok { OnOk result (HasGrown self.old self.new bytes) }
        ensures err { OnErr result (self.new ≡ self.old) }
        ensures whole { IsWhole self.new }
    {
        let number = pool_number(self.number, self.pens.len());
        let pen = new_pool(self.alloc, number, (bytes - self.bytes) / 8)?;
        self.pens.push(pen)?;
        self.bytes = bytes;
        Ok(())
    }

    /// Gives a word of the file the value `v`, at once for all threads. It is refused exactly where
    /// the word's segment has had 2^62 writes.
    pub fn write(&mut self, word: u32, v: u64) -> Result<(), WritesSpent>
        requires { word < sum (pen_sizes self.old.segments) }
        ensures ok { OnOk result (self.new ≡ after_write self.old word v) }
        ensures spent { let segment = segment_of (pen_sizes self.old.segments) word in
            IsErr result ↔ (length (pen_at self.old.segments segment).history ≡ 2 ^ 62) }
        ensures unchanged { OnErr result (self.new ≡ self.old) }
        ensures whole { IsWhole self.new }
    {
        let place = place_of(self.pens.as_slice(), word);
        self.pens[place.segment as usize].write(place.word, v)
    }

    /// One eye for each segment, in order, at its count of writes so far.
    pub fn share(&mut self) -> Result<FileEyes, AllocError>
        ensures number { IfOk result (λ e. e.number ≡ self.old.number) }
        ensures eyes { IfOk result (λ e. e.eyes ≡ map note_of self.old.segments) }
        ensures same { self.new ≡ self.old }
        ensures whole { IsWhole self.new }
    {
        let eyes = note_each(self.alloc, &mut self.pens)?;
        Ok(FileEyes {
            number: self.number,
            eyes: EyeList::from_vec(eyes),
        })
    }

    /// Takes in the loads of a receipt of this segment. Each is then known to have stood, between
    /// its low and its high.
    pub fn settle(&mut self, segment: u32, r: Receipt) -> Result<(), Stranger>
        requires within { segment < length self.old.segments }
        requires same { let pen = pen_at self.old.segments segment in
            r.number ≡ pen.number → r.pool ≡ pen.pool }
        ensures which { IsOk result ↔ (r.number ≡ (pen_at self.old.segments segment).number) }
        ensures ok { OnOk result (self.new ≡ after_settle self.old segment r) }
        ensures stood { let pen = pen_at self.new.segments segment in
            OnOk result (All (HasStood pen.history) pen.settled) }
        ensures stranger { let pen = pen_at self.old.segments segment in
            IfErr result (λ e. (e.pen ≡ pen.number) × (e.receipt ≡ r.number)) }
        ensures unchanged { OnErr result (self.new ≡ self.old) }
        ensures whole { IsWhole self.new }
    {
        self.pens[segment as usize].settle(r)
    }
}

// The number of the pool of a segment. Files of different numbers share none, nor do two segments
// of a file.
fn pool_number(number: i32, segment: usize) -> u64
    requires { segment < 64 }
    ensures { result ≡ pool_number number segment }
{
    let file = (i64::from(number) + 2_147_483_648) as u64;
    file * 64 + segment as u64
}

// A note of each pen, in order.
fn note_each(alloc: Global, pens: &mut Vec<Pen>) -> Result<Vec<Eye>, AllocError>
    ensures ok { IfOk result (λ v. v.items ≡ map note_of pens.old.items) }
    ensures same { pens.new.items ≡ pens.old.items }
{
    let mut eyes = Vec::with_capacity(alloc, pens.len())?;
    for k in 0..pens.len() {
        let eye = pens[k].note()?;
        eyes.push(eye)?;
    }
    Ok(eyes)
}
