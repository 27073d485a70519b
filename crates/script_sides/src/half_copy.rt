//! A copy whose words are loaded a few at a time.

ghost use Rattle.std.specs.Prelude.{◌≡◌, ◌+◌, ◌-◌, ◌≤◌, length, min, take, IsTrue, ◌↔◌};
ghost use Rattle.pool_words.specs.Views.{sights};
ghost use Rattle.copy_workers.specs.Copies.{IsReady};
ghost use Rattle.script_sides.specs.Halves.{half_of, IsDoneOf};

use copy_workers::{CopyDone, CopyJob, WordList};
use pool_words::Eye;
use std::marker::Model;

/// A copy that is out, of which so many words are loaded.
#[derive(Drop)]
pub(crate) struct HalfCopy {
    id: u64,
    eye: Eye,
    first: u32,
    words: Vec<u64>,
    loaded: usize,
}

impl Model for HalfCopy {
    ghost use Rattle.std.specs.Prelude.{length};
    ghost use Rattle.script_sides.specs.Halves.{HalfState, unused, IsBegun};

    ghost Value = { HalfState };

    ghost view = { λ half. record {
      id = half.id;
      eye = unused half.eye;
      first = half.first;
      count = length half.words.items;
      loaded = half.loaded;
    } };

    ghost invariant = { λ half. IsBegun half.eye half.first half.words.items half.loaded };
}

impl HalfCopy {
    /// A copy of which no word is loaded.
    pub(crate) fn new(copy: CopyJob) -> HalfCopy
        requires { IsReady copy }
        ensures { result ≡ half_of copy }
    {
        let CopyJob {
            id,
            eye,
            first,
            words,
        } = copy;
        HalfCopy {
            id,
            eye,
            first,
            words: words.into_vec(),
            loaded: 0,
        }
    }

    /// Loads the next words, at most so many, and tells how many these are.
    pub(crate) fn load(&mut self, most: usize) -> usize
        ensures count { result ≡ min most (self.old.count - self.old.loaded) }
        ensures loaded { self.new ≡ record self.old { loaded = self.old.loaded + result } }
        ensures within { self.new.loaded ≤ self.new.count }
    {
        // The words of a pool are counted by a u32.
        let _all = self.eye.words();
        let count = most.min(self.words.len() - self.loaded);
        let from = self.loaded;
        load_row(
            &mut self.eye,
            self.first,
            self.words.as_mut_slice(),
            from,
            count,
        );
        self.loaded += count;
        count
    }

    /// Whether all words are loaded.
    pub(crate) fn is_whole(&self) -> bool
        ensures { IsTrue result ↔ (self.now.loaded ≡ self.now.count) }
    {
        self.loaded == self.words.len()
    }

    /// Ends the loads of a copy that is loaded whole.
    pub(crate) fn finish(self) -> CopyDone
        requires { self.loaded ≡ self.count }
        ensures { IsDoneOf self result }
    {
        let HalfCopy {
            id,
            eye,
            first,
            words,
            loaded: _,
        } = self;
        let low = eye.low();
        CopyDone {
            id,
            first,
            words: WordList::from_vec(words),
            low,
            receipt: eye.finish(),
        }
    }
}

// Loads so many words of a row, from this one on.
fn load_row(eye: &mut Eye, first: u32, words: &mut [u64], from: usize, count: usize)
    requires row { from + count ≤ length words.old }
    requires pool { first + length words.old ≤ eye.old.words }
    requires seen { eye.old.seen ≡ sights first (take from words.old) }
    ensures count { length words.new ≡ length words.old }
    ensures eye { eye.new ≡ record eye.old {
      seen = sights first (take (from + count) words.new);
    } }
{
    // The words of a pool are counted by a u32.
    let _all = eye.words();
    let (_, rest) = words.split_at_mut(from);
    let (next, _) = rest.split_at_mut(count);
    eye.load(first + from as u32, next);
}
