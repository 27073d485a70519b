//! Copies by several threads, which come back in order.

ghost use Rattle.std.specs.Prelude.{◌≡◌, ◌<◌, All, IfOk};
ghost use Rattle.std.specs.List.{AllZip};
ghost use Rattle.std.specs.Thread.{IsSync};
ghost use Rattle.copy_workers.specs.Copies.{IsReady, IsCopyOf};

use crate::copies::{CopyDone, CopyJob, DoneList, JobList, copy_one};
use std::alloc::{AllocError, Global};
use std::thread::{Threads, join};

// The jobs are halved at most so many times, so that there are at most 16 threads.
const MOST_HALVINGS: u32 = 4;

/// Copies all jobs, in at most 16 threads. The results stand in the order of the jobs.
///
/// # Errors
/// Only where memory runs out.
pub fn copy_all<R: Threads + Sync>(
    rt: &R,
    alloc: Global,
    jobs: JobList,
) -> Result<DoneList, AllocError>
    requires { All IsReady jobs }
    ensures { IfOk result (λ dones. AllZip IsCopyOf jobs dones) }
{
    let dones = copy_halves(rt, alloc, jobs.into_vec(), MOST_HALVINGS)?;
    Ok(DoneList::from_vec(dones))
}

// Copies the first half of the jobs beside the second one.
fn copy_halves<R: Threads + Sync>(
    rt: &R,
    alloc: Global,
    mut jobs: Vec<CopyJob>,
    halvings: u32,
) -> Result<Vec<CopyDone>, AllocError>
    requires { All IsReady jobs.items }
    ensures { IfOk result (λ dones. AllZip IsCopyOf jobs.items dones.items) }
{
    if halvings == 0 || jobs.len() < 2 {
        return copy_in_turn(alloc, jobs);
    }
    let behind = jobs.split_off(jobs.len() / 2)?;
    let (front, back) = join(
        rt,
        move || -> Result<Vec<CopyDone>, AllocError>
            requires { IsSync R.row × (0 < halvings) × All IsReady jobs.items }
            ensures { IfOk result (λ dones. AllZip IsCopyOf jobs.items dones.items) }
        { copy_halves(rt, alloc, jobs, halvings - 1) },
        move || -> Result<Vec<CopyDone>, AllocError>
            requires { IsSync R.row × (0 < halvings) × All IsReady behind.items }
            ensures { IfOk result (λ dones. AllZip IsCopyOf behind.items dones.items) }
        { copy_halves(rt, alloc, behind, halvings - 1) },
    );
    let mut dones = front?;
    let mut more = back?;
    dones.append(&mut more)?;
    Ok(dones)
}

// Copies the jobs one after another.
fn copy_in_turn(alloc: Global, jobs: Vec<CopyJob>) -> Result<Vec<CopyDone>, AllocError>
    requires { All IsReady jobs.items }
    ensures { IfOk result (λ dones. AllZip IsCopyOf jobs.items dones.items) }
{
    let mut dones = Vec::with_capacity(alloc, jobs.len())?;
    for job in jobs {
        dones.push(copy_one(job))?;
    }
    Ok(dones)
}
