//! The eyes of a file in a note.

ghost use Rattle.std.specs.Prelude.{◌≡◌, find, IfOk};
ghost use Rattle.std.specs.Ordering.{int_eq};
ghost use Rattle.block_intervals.specs.Sets.{last_end};
ghost use Rattle.half_model.specs.Inlet.{eyes_in, eyes_found};
ghost use Rattle.half_model.specs.Filling.{covers};
ghost use Rattle.owed_groups.specs.JobSteps.{eyes_words};

use block_intervals::Run;
use half_model::SentFile;
use plain_lists::PlainList;
use pool_words::Eye;
use shm_pools::{EyeList, FileEyesList, Note};
use std::alloc::{AllocError, Global};
use std::collections::VecDeque;

/// The eyes of a file in a note, one for each segment; none where there is no note, or it has none
/// of that file. Takes no memory.
pub(crate) fn eyes_in(alloc: Global, file: SentFile, note: Option<Note>) -> EyeList
    ensures { result ≡ eyes_in file.number note }
{
    match note {
        Some(note) => eyes_among(alloc, file, note.files),
        None => EyeList::new(alloc),
    }
}

// The eyes of a file among those of several.
fn eyes_among(alloc: Global, file: SentFile, files: FileEyesList) -> EyeList
    ensures { result ≡ eyes_found (find (λ it. int_eq file.number it.number) files) }
{
    let mut queue = VecDeque::from(files.into_vec());
    while let Some(it) = queue.pop_front() {
        if it.number == file.number {
            return it.eyes;
        }
    }
    EyeList::new(alloc)
}

/// How many words each eye has.
///
/// # Errors
/// Only where memory runs out.
pub(crate) fn words_of(alloc: Global, eyes: &[Eye]) -> Result<PlainList<u32>, AllocError>
    ensures { IfOk result (λ words. words ≡ eyes_words eyes.now) }
{
    let mut words = PlainList::new(alloc);
    for eye in eyes {
        words.push(eye.words())?;
    }
    Ok(words)
}

/// Whether the segments have all words of the blocks.
pub(crate) fn covers(runs: &[Run], segments: &[u32]) -> bool
    ensures { result ≡ covers runs.now segments.now }
{
    let mut left = 8 * u64::from(last_end(runs));
    for words in segments {
        left = left.saturating_sub(u64::from(*words));
    }
    left == 0
}

// The end of the last run, or 0 where there is none.
fn last_end(runs: &[Run]) -> u32
    ensures { result ≡ last_end 0 runs.now }
{
    match runs.last() {
        Some(run) => run.end,
        None => 0,
    }
}
