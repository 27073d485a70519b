//! The files of a peer.

ghost use Rattle.std.specs.Prelude.{◌≡◌, ◌<◌, [], ◌∷◌, ◌++◌, true, None, length, map};
ghost use Rattle.std.specs.Prelude.{IfOk, OnOk, IfSome};
ghost use Rattle.pool_words.specs.Views.{PoolId};
ghost use Rattle.shm_pools.specs.Files.{after_settle};
ghost use Rattle.script_peers.specs.Owning.{place_of, changed, is_size, new_file, grown, filled};
ghost use Rattle.script_peers.specs.Owning.{AreSound, IsOwnReceipt};
ghost use Rattle.script_peers.specs.Owning.{eyes_on, note_on};

use crate::own_file::OwnFile;
use indexmap::IndexSet;
use pool_words::Receipt;
use shm_pools::{FileEyes, FileEyesList, Note};
use std::alloc::{AllocError, Global};
use std::marker::Model;

/// The files of a peer, in the order of their making. A file is found by its number in expected
/// constant time, since the numbers are those of a script.
#[derive(Drop)]
pub(crate) struct OwnFiles {
    numbers: IndexSet<i32>,
    files: Vec<OwnFile>,
    alloc: Global,
}

impl Model for OwnFiles {
    ghost use Rattle.std.specs.Prelude.{◌≡◌, List};
    ghost use Rattle.shm_pools.specs.Files.{FileState};
    ghost use Rattle.script_peers.specs.Owning.{numbers_of, AreSound};

    ghost Value = { List FileState };

    ghost view = { λ it. it.files.items };

    ghost invariant = { λ it. (it.numbers.keys ≡ numbers_of it.files.items)
        × AreSound it.files.items };
}

impl OwnFiles {
    /// No file. Takes no memory.
    pub(crate) fn new(alloc: Global) -> OwnFiles
        ensures { result ≡ [] }
    {
        OwnFiles {
            numbers: IndexSet::new(alloc),
            files: Vec::new(alloc),
            alloc,
        }
    }

    /// Where the file of a number stands.
    pub(crate) fn place(&self, number: i32) -> Option<usize>
        ensures place { result ≡ place_of number self.now }
        ensures within { IfSome result (λ place. place < length self.now) }
    {
        self.numbers.get_index_of(&number)
    }

    /// What always holds of them.
    pub(crate) fn vouch(&self)
        ensures { AreSound self.now }
    {
        // Its type tells it where a field is read.
        let _files = &self.files;
    }

    /// Makes a file of a number that is new.
    pub(crate) fn make(&mut self, number: i32, bytes: u32) -> Result<(), AllocError>
        requires new { place_of number self.old ≡ None }
        requires size { is_size bytes ≡ true }
        ensures { OnOk result ((pool : PoolId)
            × (self.new ≡ self.old ++ new_file pool number bytes ∷ [])) }
    {
        let file = OwnFile::new(self.alloc, number, bytes)?;
        self.files.push(file)?;
        match self.numbers.insert(number) {
            Ok(_) => Ok(()),
            Err(_) => {
                self.files.pop();
                Err(AllocError)
            }
        }
    }

    /// Adds a segment to the file of a number, so that it has this many bytes.
    pub(crate) fn grow(&mut self, number: i32, bytes: u32) -> Result<(), AllocError>
        ensures { OnOk result ((pool : PoolId)
            × (self.new ≡ changed (grown pool bytes) self.old (place_of number self.old))) }
    {
        match self.place(number) {
            Some(place) => self.files[place].grow(bytes),
            None => Ok(()),
        }
    }

    /// Gives words of the file of a number a value.
    pub(crate) fn fill(
        &mut self,
        number: i32,
        first: u32,
        count: u32,
        value: u64,
    ) -> Result<(), AllocError>
        ensures { OnOk result
            (self.new ≡ changed (filled first count value) self.old (place_of number self.old)) }
    {
        match self.place(number) {
            Some(place) => self.files[place].fill(first, count, value),
            None => Ok(()),
        }
    }

    /// A note of all files.
    pub(crate) fn note(&mut self) -> Result<Note, AllocError>
        ensures note { IfOk result (λ note. note ≡ note_on self.old) }
        ensures same { self.new ≡ self.old }
    {
        let eyes = share_each(self.alloc, &mut self.files)?;
        Ok(Note {
            files: FileEyesList::from_vec(eyes),
        })
    }

    /// Settles a receipt with the pen of its segment.
    pub(crate) fn settle(&mut self, number: i32, segment: u32, receipt: Receipt)
        requires { IsOwnReceipt number segment receipt self.old }
        ensures settled { self.new
            ≡ changed (λ f. after_settle f segment receipt) self.old (place_of number self.old) }
        ensures sound { AreSound self.new }
    {
        match self.place(number) {
            Some(place) => self.files[place].settle(segment, receipt),
            None => unreachable!(),
        }
    }
}

/// The eyes of each file, in order.
fn share_each(alloc: Global, files: &mut Vec<OwnFile>) -> Result<Vec<FileEyes>, AllocError>
    ensures ok { IfOk result (λ eyes. eyes.items ≡ map eyes_on files.old.items) }
    ensures same { files.new.items ≡ files.old.items }
{
    let mut eyes = Vec::with_capacity(alloc, files.len())?;
    for place in 0..files.len() {
        let shared = files[place].share()?;
        eyes.push(shared)?;
    }
    Ok(eyes)
}
