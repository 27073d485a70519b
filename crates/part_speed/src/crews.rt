//! Copies of live words by a crew.

ghost use Rattle.std.specs.Prelude.{◌≤◌};

use crate::copies::{job_within, words_of};
use copy_workers::{Chief, CopyDone, NotYet, OpenGate, open_crew};
use pool_words::{Eye, new_pool};
use std::alloc::{AllocError, Global};
use std::sync::Wait;
use std::thread;
use std::thread::{Threads, join};

// As many words lie in the lists that are out at once, where these are no fewer than the least
// lists and no more than the most.
const WORDS_OUT: u32 = 1 << 20;

const LEAST_LISTS: u32 = 8;

const MOST_LISTS: u32 = 256;

// How often a result is asked for before it is given up.
const MOST_TURNS: u32 = 1_000_000_000;

/// Copies all words of a pool so many times by a crew of so many workers, and answers how many
/// copies came back.
pub fn count_by_crew<R: Threads + Wait + Sync>(
    rt: &R,
    alloc: Global,
    workers: u32,
    words: u32,
    times: u32,
) -> Result<u64, AllocError>
    requires workers { (1 ≤ workers) × (workers ≤ 16) }
    requires words { (1 ≤ words) × (words ≤ 8388608) }
{
    let mut pen = new_pool(alloc, 1, words)?;
    let eye = pen.note()?;
    let gate = OpenGate;
    let (chief, crew) = open_crew(alloc, workers, &gate)?;
    let crew = crew.into_vec();
    let (back, spent) = join(
        rt,
        move || ask(rt, alloc, chief, eye, times),
        move || thread::map_vec(rt, crew, &|worker| worker.serve(rt)),
    );
    let _ = spent?;
    back
}

// Offers so many jobs, most of them with the words of one that came back, and answers how many came
// back.
fn ask<W: Wait>(
    rt: &W,
    alloc: Global,
    mut chief: Chief,
    mut eye: Eye,
    times: u32,
) -> Result<u64, AllocError> {
    let words = eye.words();
    let lists = (WORDS_OUT / words)
        .clamp(LEAST_LISTS, MOST_LISTS)
        .min(times);
    for _ in 0..lists {
        let job = job_within(&mut eye, words_of(alloc, words)?)?;
        let _ = chief.offer(rt, job);
    }
    let mut back: u64 = 0;
    for time in 0..times {
        let Some(done) = gather(rt, &mut chief) else {
            break;
        };
        back = back.wrapping_add(1);
        if time < times - lists {
            let job = job_within(&mut eye, done.words)?;
            let _ = chief.offer(rt, job);
        }
    }
    Ok(back)
}

// The next result, or none where it does not come.
fn gather<W: Wait>(rt: &W, chief: &mut Chief) -> Option<CopyDone> {
    for _ in 0..MOST_TURNS {
        match chief.gather(rt) {
            Ok(done) => return Some(done),
            Err(NotYet) => thread::yield_now(),
        }
    }
    None
}
