//! Copies in one thread, by several, and by crews. Each test ends by itself, and asserts nothing
//! that the schedule decides.

ghost use Rattle.std.specs.Prelude.{◌≡◌, length, All, IfOk};
ghost use Rattle.pool_words.specs.Views.{note_of};
ghost use Rattle.copy_workers.specs.Copies.{IsReady};
ghost use Rattle.copy_workers.specs.Crews.{CrewId, fresh};

use super::*;
use pool_words::{Pen, new_pool};
use std::alloc::{AllocError, Global};
use std::sync::Wait;
use std::test::*;
use std::thread;
use std::thread::Threads;

mod crews;
mod full_queues;
mod in_order;
mod side_by_side;

// A job for as many words, from this one on, so far as the pool has them.
fn job_of(
    alloc: Global,
    pen: &mut Pen,
    id: u64,
    first: u32,
    words: u32,
) -> Result<CopyJob, AllocError>
    ensures ready { IfOk result IsReady }
    ensures eye { IfOk result (λ job. job.eye ≡ note_of pen.old) }
    ensures same { pen.new ≡ pen.old }
{
    let first = first.min(pen.words());
    let words = words.min(pen.words() - first) as usize;
    Ok(CopyJob {
        id,
        eye: pen.note()?,
        first,
        words: WordList::from_vec(vec![in alloc; 6u64; words]?),
    })
}

// How many copies there are, the sum of their ids, and the sum of all their words.
fn sums(dones: &DoneList) -> (usize, u64, u64) {
    let mut ids: u64 = 0;
    let mut words: u64 = 0;
    for done in dones.as_slice() {
        ids = ids.wrapping_add(done.id);
        for word in done.words.as_slice() {
            words = words.wrapping_add(*word);
        }
    }
    (dones.len(), ids, words)
}

// A worker serves, or ends before that.
fn end<'g, W: Wait, G: Gate>(rt: &W, worker: Worker<'g, G>, serves: bool) -> Spent
    ensures { result.crew ≡ worker.entry.crew }
{
    if serves {
        return worker.serve(rt);
    }
    let Worker { desk, gate: _ } = worker;
    Spent { desk }
}

// All workers of a crew serve, each in a thread of its own, or end before that.
fn end_all<'g, R: Threads + Wait + Sync, G: Gate>(
    rt: &R,
    workers: Vec<Worker<'g, G>>,
    serve: bool,
) -> Result<SpentList, AllocError>
    ensures count { IfOk result (λ spent. length spent ≡ length workers.entry.items) }
    ensures crew { IfOk result (λ spent. (crew : CrewId)
        → All (λ w. w ≡ fresh crew) workers.entry.items → All (λ s. s.crew ≡ crew) spent) }
{
    let spent = thread::map_vec(
        rt,
        workers,
        &|worker: Worker<G>| -> Spent
            ensures { result.crew ≡ worker.entry.crew }
        { end(rt, worker, serve) },
    )?;
    Ok(SpentList::from_vec(spent))
}

// What a crew has left that is closed, once its workers have ended.
fn left_at<'g, R: Threads + Wait + Sync, G: Gate>(
    rt: &R,
    alloc: Global,
    closed: ChiefSpent,
    workers: Vec<Worker<'g, G>>,
    serve: bool,
) -> Result<DoneList, AllocError>
    requires count { length workers.items ≡ closed.workers }
    requires crew { All (λ w. w ≡ fresh closed.crew) workers.items }
{
    let spent = end_all(rt, workers, serve)?;
    leftovers(rt, alloc, closed, spent)
}

#[test]
fn one_copy(rt: HostRuntime) -> Result<(), Fail> {
    let mut pen = new_pool(rt.alloc(), 5, 8)?;
    pen.write(3, 7)?;
    let job = job_of(rt.alloc(), &mut pen, 11, 2, 4)?;
    pen.write(4, 9)?;
    let done = copy_one(job);
    assert_eq!(rt; (done.id, done.first, done.low), (11, 2, 1));
    assert_eq!(rt; done.words.as_slice(), [0, 7, 9, 0].as_slice());
    assert_eq!(rt; (done.receipt.number(), done.receipt.high()), (5, 2));
    assert!(rt; pen.settle(done.receipt).is_ok());
    Ok(())
}

// The words of a copy.
fn copied(alloc: Global, pen: &mut Pen, first: u32, words: u32) -> Result<WordList, AllocError>
    ensures { pen.new ≡ pen.old }
{
    Ok(copy_one(job_of(alloc, pen, 1, first, words)?).words)
}

#[test]
fn rows_at_the_ends(rt: HostRuntime) -> Result<(), Fail> {
    let mut pen = new_pool(rt.alloc(), 5, 4)?;
    pen.write(1, 7)?;
    pen.write(3, 8)?;
    let all = copied(rt.alloc(), &mut pen, 0, 4)?;
    assert_eq!(rt; all.as_slice(), [0, 7, 0, 8].as_slice());
    assert_eq!(rt;
        copied(rt.alloc(), &mut pen, 3, 1)?.as_slice(),
        [8].as_slice()
    );
    assert_eq!(rt; copied(rt.alloc(), &mut pen, 4, 0)?.len(), 0);
    Ok(())
}
