//! What is left once a crew is closed and its workers have ended.

ghost use Rattle.std.specs.Prelude.{◌≡◌, ◌++◌, All, IsPermutation, IfOk, IfSome};
ghost use Rattle.std.specs.List.{AllZip};
ghost use Rattle.copy_workers.specs.Copies.{IsCopyOf};
ghost use Rattle.copy_workers.specs.Hands.{all_parts};
ghost use Rattle.copy_workers.specs.Crews.{AreAllOf, EachOnce, CopiesRest};

use crate::chiefs::ChiefSpent;
use crate::copies::{CopyDone, DoneList, copy_one};
use crate::desks::Desk;
use crate::ports::Port;
use crate::ready::ReadyJob;
use crate::workers::{Spent, SpentList};
use std::alloc::{AllocError, Global};
use std::sync::Wait;

/// The results that nobody gathered, and the copies of the jobs that no worker took, which this
/// call makes itself. With the results that were gathered, each job that was offered came back
/// once, whole. It needs each worker of the crew. What a worker was told is the list of the jobs
/// that were offered in all.
///
/// # Errors
/// Only where memory runs out.
pub fn leftovers<W: Wait>(
    rt: &W,
    alloc: Global,
    chief: ChiefSpent,
    spent: SpentList,
) -> Result<DoneList, AllocError>
    requires { AreAllOf chief spent }
    ensures once { IfOk result (λ left. EachOnce chief.offered (chief.gathered ++ left)) }
    ensures told { All (λ s. IfSome s.told (λ jobs. jobs ≡ chief.offered)) spent }
{
    let (jobs, results) = together(chief, spent);
    let mut left = take_results(rt, alloc, results)?;
    let mut more = copy_jobs(rt, alloc, jobs)?;
    left.append_list(&mut more)?;
    Ok(left)
}

// The chief's ports, with those of all its workers.
fn together(chief: ChiefSpent, spent: SpentList) -> (Port<ReadyJob>, Port<CopyDone>)
    requires { AreAllOf chief spent }
    ensures parts { (result.0.parts ≡ all_parts) × (result.1.parts ≡ all_parts) }
    ensures offered { result.0.put ≡ chief.offered }
    ensures gathered { result.1.taken ≡ chief.gathered }
    ensures copied { AllZip IsCopyOf result.0.taken result.1.put }
    ensures told { All (λ s. IfSome s.told (λ jobs. jobs ≡ chief.offered)) spent }
{
    let ChiefSpent {
        mut jobs,
        mut results,
        mut notice,
        workers: _,
    } = chief;
    for worker in spent {
        let Spent { desk } = worker;
        let Desk {
            jobs: theirs,
            results: made,
            notice: read,
        } = desk;
        jobs.absorb(theirs);
        results.absorb(made);
        notice.compare(read);
    }
    (jobs, results)
}

// The results that are in their queue.
fn take_results<W: Wait>(
    rt: &W,
    alloc: Global,
    mut results: Port<CopyDone>,
) -> Result<DoneList, AllocError>
    requires { results.parts ≡ all_parts }
    ensures { IfOk result (λ left. IsPermutation results.put (results.taken ++ left)) }
{
    let mut left = DoneList::new(alloc);
    for _ in rt.forever() {
        match results.pop(rt) {
            Some(done) => left.push(done)?,
            None => return Ok(left),
        }
    }
    unreachable!()
}

// Copies of the jobs that are in their queue.
fn copy_jobs<W: Wait>(
    rt: &W,
    alloc: Global,
    mut jobs: Port<ReadyJob>,
) -> Result<DoneList, AllocError>
    requires { jobs.parts ≡ all_parts }
    ensures { IfOk result (λ dones. CopiesRest jobs.put jobs.taken dones) }
{
    let mut dones = DoneList::new(alloc);
    for _ in rt.forever() {
        match jobs.pop(rt) {
            Some(job) => dones.push(copy_one(job.into_job()))?,
            None => return Ok(dones),
        }
    }
    unreachable!()
}
