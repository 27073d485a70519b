//! Copies of live words by jobs, in one thread and in several, and plain loops of atomic loads.

ghost use Rattle.std.specs.Prelude.{◌≡◌, ◌≤◌, length, All, IfOk};
ghost use Rattle.copy_workers.specs.Copies.{IsReady};

use copy_workers::{CopyJob, JobList, WordList, copy_all, copy_one};
use pool_words::{Eye, new_pool};
use std::alloc::{AllocError, Global};
use std::sync::atomic::{AtomicU64, Ordering};
use std::thread::Threads;

// How many jobs several threads are given at once.
const JOBS_AT_ONCE: u32 = 16;

/// Copies all words of a pool so many times, each time after one write, and answers the sum of what
/// the copies' receipts count.
pub fn sum_by_one(alloc: Global, words: u32, times: u32) -> Result<u64, AllocError>
    requires { (1 ≤ words) × (words ≤ 8388608) }
{
    let mut pen = new_pool(alloc, 1, words)?;
    let mut list = words_of(alloc, words)?;
    let mut sum: u64 = 0;
    for time in 0..times {
        let _ = pen.write(time % words, u64::from(time));
        let mut eye = pen.note()?;
        let done = copy_one(job_of(&mut eye, u64::from(time), list)?);
        sum = sum.wrapping_add(done.receipt.high());
        list = done.words;
    }
    Ok(sum)
}

/// Copies all words of a pool so many times in several threads, sixteen copies at once, and answers
/// how many copies came back.
pub fn count_by_all<R: Threads + Sync>(
    rt: &R,
    alloc: Global,
    words: u32,
    times: u32,
) -> Result<u64, AllocError>
    requires { (1 ≤ words) × (words ≤ 8388608) }
{
    let mut pen = new_pool(alloc, 1, words)?;
    let mut eye = pen.note()?;
    let mut lists = Vec::new(alloc);
    for _ in 0..JOBS_AT_ONCE {
        lists.push(words_of(alloc, words)?)?;
    }
    let mut back: u64 = 0;
    for _ in 0..times / JOBS_AT_ONCE {
        let jobs = jobs_of(alloc, &mut eye, lists)?;
        lists = Vec::new(alloc);
        for done in copy_all(rt, alloc, jobs)? {
            back = back.wrapping_add(1);
            lists.push(done.words)?;
        }
    }
    Ok(back)
}

// A job for each of these lists.
fn jobs_of(alloc: Global, eye: &mut Eye, lists: Vec<WordList>) -> Result<JobList, AllocError>
    ensures { IfOk result (λ jobs. All IsReady jobs) }
{
    let mut jobs = JobList::new(alloc);
    for list in lists {
        jobs.push(job_within(eye, list)?)?;
    }
    Ok(jobs)
}

/// Loads as many atomic words by a plain loop so many times, each time after one store, and answers
/// the sum of one word of each time.
pub fn sum_of_atomics(alloc: Global, words: u32, times: u32) -> Result<u64, AllocError>
    requires { (1 ≤ words) × (words ≤ 8388608) }
{
    let mut from = Vec::with_capacity(alloc, words as usize)?;
    for _ in 0..words {
        from.push(AtomicU64::new(0))?;
    }
    let mut out = vec![in alloc; 0u64; words as usize]?;
    let mut sum: u64 = 0;
    for time in 0..times {
        let place = (time % words) as usize;
        from[place].store(u64::from(time), Ordering::SeqCst);
        load_all(from.as_slice(), out.as_mut_slice());
        sum = sum.wrapping_add(out[place]);
    }
    Ok(sum)
}

// Loads each word, in ascending order.
fn load_all(from: &[AtomicU64], out: &mut [u64])
    ensures { length out.new ≡ length out.old }
{
    for (word, place) in from.iter().zip(out.iter_mut()) {
        *place = word.load(Ordering::SeqCst);
    }
}

/// A list of so many words.
pub fn words_of(alloc: Global, words: u32) -> Result<WordList, AllocError>
    ensures { IfOk result (λ list. length list ≡ words) }
{
    Ok(WordList::from_vec(vec![in alloc; 0u64; words as usize]?))
}

/// A job for a pool's words from the first on.
pub fn job_of(eye: &mut Eye, id: u64, words: WordList) -> Result<CopyJob, AllocError>
    requires { length words ≤ eye.old.words }
    ensures ready { IfOk result IsReady }
    ensures words { IfOk result (λ job. length job.words ≡ length words) }
    ensures same { eye.new ≡ eye.old }
{
    Ok(CopyJob {
        id,
        eye: eye.split()?,
        first: 0,
        words,
    })
}

/// A job for a pool's words from the first on, for as many as the list and the pool have.
pub fn job_within(eye: &mut Eye, mut words: WordList) -> Result<CopyJob, AllocError>
    ensures ready { IfOk result IsReady }
    ensures same { eye.new ≡ eye.old }
{
    words.truncate(eye.words() as usize);
    job_of(eye, 0, words)
}
