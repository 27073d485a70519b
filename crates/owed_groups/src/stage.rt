//! How far a copy has come.

use copy_workers::WordList;
use pool_words::{Eye, Receipt};

/// A copy waits with its eye and the words that are to be written over, is out, or is back with its
/// words and what stands for their loads.
#[derive(Drop)]
pub(crate) enum Stage {
    Waits { eye: Eye, words: WordList },
    IsOut,
    IsBack { words: WordList, receipt: Receipt },
}

/// A place in the words that came back: so many words behind the first of a job.
#[derive(Clone, Copy)]
pub(crate) struct WordPlace {
    pub(crate) job: usize,
    pub(crate) word: usize,
}
