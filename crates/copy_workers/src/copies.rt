//! One copy of a row of live words.

ghost use Rattle.std.specs.Prelude.{◌≡◌};
ghost use Rattle.copy_workers.specs.Copies.{IsReady, IsCopyOf, StandsFor};

use plain_lists::PlainList;
use pool_words::{Eye, Receipt};
use std::marker::Model;

/// Words of shared memory.
pub type WordList = PlainList<u64>;

/// Jobs, in order.
pub type JobList = PlainList<CopyJob>;

/// Copies, in order.
pub type DoneList = PlainList<CopyDone>;

/// A row of words to be copied.
#[derive(Drop)]
pub struct CopyJob {
    /// The caller's own name for it.
    pub id: u64,
    /// The note whose words are copied.
    pub eye: Eye,
    /// The first word.
    pub first: u32,
    /// As many words as are to be copied. They are written over.
    pub words: WordList,
}

/// A copy. Its receipt stands for just the loads of its words, each with this low, which the type
/// keeps.
#[derive(Drop)]
pub struct CopyDone {
    /// The id of the job.
    pub id: u64,
    /// Which word of the pool the first of `words` is.
    pub first: u32,
    /// The words as they were loaded.
    pub words: WordList,
    /// The count of writes at the note.
    pub low: u64,
    /// What stands for the loads.
    pub receipt: Receipt,
}

impl Model for CopyDone {
    ghost use Rattle.copy_workers.specs.Copies.{DoneState, StandsFor};

    ghost Value = { DoneState };

    ghost view = { λ done. record {
      id = done.id;
      first = done.first;
      words = done.words;
      low = done.low;
      receipt = done.receipt;
    } };

    ghost invariant = { λ done. StandsFor done.first done.words done.low done.receipt };
}

impl CopyDone {
    // The same copy, of which the caller is told what its type keeps.
    pub(crate) fn shown(self) -> CopyDone
        ensures same { result ≡ self }
        ensures whole { StandsFor result.first result.words result.low result.receipt }
    {
        let _ = &self.receipt;
        self
    }
}

/// Copies the words of a job: its own words are loaded over, in ascending order, each by one atomic
/// load. Takes no memory.
pub fn copy_one(job: CopyJob) -> CopyDone
    requires { IsReady job }
    ensures { IsCopyOf job result }
{
    let CopyJob {
        id,
        mut eye,
        first,
        words,
    } = job;
    let low = eye.low();
    let mut words = words.into_vec();
    eye.load(first, words.as_mut_slice());
    CopyDone {
        id,
        first,
        words: WordList::from_vec(words),
        low,
        receipt: eye.finish(),
    }
}
