//! Copies by several threads, in the order of their jobs.

ghost use Rattle.std.specs.Prelude.{All, IfOk};
ghost use Rattle.copy_workers.specs.Copies.{IsReady};

use super::*;

// So many jobs of one word each, the first of which is word 0.
fn jobs_of(alloc: Global, pen: &mut Pen, count: u32) -> Result<JobList, AllocError>
    ensures { IfOk result (λ jobs. All IsReady jobs) }
{
    let mut jobs = JobList::new(alloc);
    for id in 0..count {
        jobs.push(job_of(alloc, pen, u64::from(id), id % 64, 1)?)?;
    }
    Ok(jobs)
}

// How many copies come back, and how many of them stand in their place.
fn in_place<R: Threads + Sync>(rt: &R, alloc: Global, count: u32) -> Result<(usize, usize), Fail> {
    let mut pen = new_pool(alloc, 5, 64)?;
    let dones = copy_all(rt, alloc, jobs_of(alloc, &mut pen, count)?)?;
    let mut good: usize = 0;
    for (place, done) in dones.as_slice().iter().enumerate() {
        if done.id == place as u64 && done.words.as_slice() == [0].as_slice() {
            good = good.wrapping_add(1);
        }
    }
    Ok((dones.len(), good))
}

#[test]
fn none_two_and_a_thousand_in_order(rt: HostRuntime) -> Result<(), Fail> {
    for count in [0, 1, 2, 1000] {
        let want = count as usize;
        assert_eq!(rt;
            in_place(&rt, rt.alloc(), count)?,
            (want, want),
            "of {count}"
        );
    }
    Ok(())
}
