//! Crews copy while another thread goes on writing.

ghost use Rattle.std.specs.Prelude.{◌≡◌, ◌≤◌, [], length, All, IfOk, OnOk};
ghost use Rattle.copy_workers.specs.Copies.{IsReady};
ghost use Rattle.copy_workers.specs.Crews.{CrewId, opened, fresh};

use super::*;
use pool_words::Eye;
use std::thread::join;

const WORDS: u32 = 64;

const JOBS: u32 = 5000;

const MOST_LEFT: usize = 4000;

const WRITES: u32 = 200_000;

const MOST_TURNS: u32 = 100_000_000;

// Writes all words of the pool again and again.
fn write_many(mut pen: Pen) -> Pen
    requires { pen.words ≡ 64 }
    ensures { (result.pool ≡ pen.pool) × (result.number ≡ pen.number) }
{
    for i in 0..WRITES {
        let _ = pen.write(i % WORDS, u64::from(i));
    }
    pen
}

// A job for four words of the eye's pool, or for all that it has from there on.
fn part_of(alloc: Global, eye: &mut Eye, id: u32) -> Result<CopyJob, AllocError>
    ensures ready { IfOk result IsReady }
    ensures pool { IfOk result (λ job.
        (job.eye.pool ≡ eye.old.pool) × (job.eye.number ≡ eye.old.number)) }
    ensures same { eye.new ≡ eye.old }
{
    let first = (id % WORDS).min(eye.words());
    let words = (eye.words() - first).min(4) as usize;
    Ok(CopyJob {
        id: u64::from(id),
        eye: eye.split()?,
        first,
        words: WordList::from_vec(vec![in alloc; 0u64; words]?),
    })
}

// Offers a job. One that comes back is let go.
fn offer_part<W: Wait>(
    rt: &W,
    alloc: Global,
    chief: &mut Chief,
    eye: &mut Eye,
    id: u32,
) -> Result<bool, AllocError>
    requires { All (λ job.
        (job.eye.pool ≡ eye.old.pool) × (job.eye.number ≡ eye.old.number)) chief.old.offered }
    ensures pool { All (λ job.
        (job.eye.pool ≡ eye.old.pool) × (job.eye.number ≡ eye.old.number)) chief.new.offered }
    ensures crew { (chief.new.crew ≡ chief.old.crew) × (chief.new.workers ≡ chief.old.workers) }
    ensures gathered { chief.new.gathered ≡ chief.old.gathered }
    ensures eye { eye.new ≡ eye.old }
{
    let job = part_of(alloc, eye, id)?;
    Ok(chief.offer(rt, job).is_ok())
}

// Takes a result, if there is one.
fn gather_one<W: Wait>(rt: &W, chief: &mut Chief, dones: &mut DoneList) -> Result<(), AllocError>
    requires { chief.old.gathered ≡ dones.old }
    ensures gathered { OnOk result (chief.new.gathered ≡ dones.new) }
    ensures crew { (chief.new.crew ≡ chief.old.crew) × (chief.new.workers ≡ chief.old.workers) }
    ensures offered { chief.new.offered ≡ chief.old.offered }
{
    match chief.gather(rt) {
        Ok(done) => dones.push(done),
        Err(NotYet) => {
            thread::yield_now();
            Ok(())
        }
    }
}

// Offers all jobs and gathers results until at most a thousand are out, and closes the crew. A job
// that comes back is made anew.
fn ask<W: Wait>(
    rt: &W,
    alloc: Global,
    mut chief: Chief,
    mut eye: Eye,
) -> Result<(ChiefSpent, DoneList), AllocError>
    requires { (chief.offered ≡ []) × (chief.gathered ≡ []) }
    ensures crew { IfOk result (λ r.
        (r.0.crew ≡ chief.crew) × (r.0.workers ≡ chief.workers)) }
    ensures gathered { IfOk result (λ r. r.0.gathered ≡ r.1) }
    ensures pool { IfOk result (λ r. All (λ job.
        (job.eye.pool ≡ eye.pool) × (job.eye.number ≡ eye.number)) r.0.offered) }
{
    let mut dones = DoneList::new(alloc);
    let mut id: u32 = 0;
    for _ in 0..MOST_TURNS {
        if id >= JOBS && dones.len() >= MOST_LEFT {
            break;
        }
        if id < JOBS && offer_part(rt, alloc, &mut chief, &mut eye, id)? {
            id = id.wrapping_add(1);
        }
        gather_one(rt, &mut chief, &mut dones)?;
    }
    Ok((chief.close(), dones))
}

// Settles a receipt with its pen.
fn settle_one(pen: &mut Pen, done: CopyDone) -> bool
    requires { (done.receipt.pool ≡ pen.old.pool) × (done.receipt.number ≡ pen.old.number) }
    ensures { (pen.new.pool ≡ pen.old.pool) × (pen.new.number ≡ pen.old.number) }
{
    pen.settle(done.receipt).is_ok()
}

// Settles the receipts. It says how many there were, and the sum of the ids.
fn settle_all(mut pen: Pen, dones: DoneList) -> (u64, u64)
    requires { All (λ d. (d.receipt.pool ≡ pen.pool) × (d.receipt.number ≡ pen.number)) dones }
{
    let mut settled: u64 = 0;
    let mut ids: u64 = 0;
    for done in dones {
        ids = ids.wrapping_add(done.id);
        settled = settled.wrapping_add(u64::from(settle_one(&mut pen, done)));
    }
    (settled, ids)
}

// What a crew copies for one who asks, each in a thread of its own.
fn copies_of<'g, R: Threads + Wait + Sync, G: Gate>(
    rt: &R,
    alloc: Global,
    chief: Chief,
    workers: Vec<Worker<'g, G>>,
    eye: Eye,
) -> Result<DoneList, AllocError>
    requires chief { chief ≡ opened chief.crew (length workers.items) }
    requires workers { All (λ w. w ≡ fresh chief.crew) workers.items }
    ensures { IfOk result (λ dones. All (λ d.
        (d.receipt.pool ≡ eye.pool) × (d.receipt.number ≡ eye.number)) dones) }
{
    let (asked, spent) = join(
        rt,
        move || -> Result<(ChiefSpent, DoneList), AllocError>
            requires { (chief.offered ≡ []) × (chief.gathered ≡ []) }
            ensures crew { IfOk result (λ r.
                (r.0.crew ≡ chief.crew) × (r.0.workers ≡ chief.workers)) }
            ensures gathered { IfOk result (λ r. r.0.gathered ≡ r.1) }
            ensures pool { IfOk result (λ r. All (λ job.
                (job.eye.pool ≡ eye.pool) × (job.eye.number ≡ eye.number)) r.0.offered) }
        { ask(rt, alloc, chief, eye) },
        move || -> Result<SpentList, AllocError>
            ensures count { IfOk result (λ spent. length spent ≡ length workers.entry.items) }
            ensures crew { IfOk result (λ spent. (crew : CrewId)
                → All (λ w. w ≡ fresh crew) workers.entry.items → All (λ s. s.crew ≡ crew) spent) }
        { end_all(rt, workers, true) },
    );
    let (closed, mut dones) = asked?;
    let spent = spent?;
    let mut left = leftovers(rt, alloc, closed, spent)?;
    dones.append_list(&mut left)?;
    Ok(dones)
}

// A crew of so many workers copies while the pool is written. It says how many copies were settled
// with the pen, and the sum of their ids.
fn settled_of<R: Threads + Wait + Sync>(
    rt: &R,
    alloc: Global,
    count: u32,
) -> Result<(u64, u64), Fail>
    requires { (1 ≤ count) × (count ≤ 16) }
{
    let mut pen = new_pool(alloc, 9, WORDS)?;
    let eye = pen.note()?;
    let gate = OpenGate;
    let (chief, workers) = open_crew(alloc, count, &gate)?;
    let workers = workers.into_vec();
    let (dones, pen) = join(
        rt,
        move || -> Result<DoneList, AllocError>
            requires chief { chief ≡ opened chief.crew (length workers.items) }
            requires workers { All (λ w. w ≡ fresh chief.crew) workers.items }
            ensures { IfOk result (λ dones. All (λ d.
                (d.receipt.pool ≡ eye.pool) × (d.receipt.number ≡ eye.number)) dones) }
        { copies_of(rt, alloc, chief, workers, eye) },
        move || write_many(pen),
    );
    Ok(settle_all(pen, dones?))
}

#[test]
fn crews_of_1_2_and_16(rt: HostRuntime) -> Result<(), Fail> {
    let sum = u64::from(JOBS) * u64::from(JOBS - 1) / 2;
    for count in [1, 2, 16] {
        let settled = settled_of(&rt, rt.alloc(), count)?;
        assert_eq!(rt; settled, (u64::from(JOBS), sum), "with {count}");
    }
    Ok(())
}
