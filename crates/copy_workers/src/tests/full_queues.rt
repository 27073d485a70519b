//! Crews whose queue of jobs is full, and crews that are closed with jobs left.

ghost use Rattle.std.specs.Prelude.{◌≡◌};

use super::*;

// Offers so many jobs for the whole pool. It says how many came back, and the id of the last of
// them.
fn offer_many<W: Wait>(
    rt: &W,
    alloc: Global,
    chief: &mut Chief,
    pen: &mut Pen,
    count: u64,
) -> Result<(u64, u64), AllocError>
    ensures { (chief.new.crew ≡ chief.old.crew) × (chief.new.workers ≡ chief.old.workers) }
{
    let mut back: u64 = 0;
    let mut last = 0;
    for id in 0..count {
        if let Err(job) = chief.offer(rt, job_of(alloc, pen, id, 0, 8)?) {
            back = back.wrapping_add(1);
            last = job.id;
        }
    }
    Ok((back, last))
}

// A crew of one is offered so many jobs, and is closed; then its worker serves, or ends at once. It
// says how many jobs came back, the id of the last of them, and the sums of what was left.
fn left_of<R: Threads + Wait + Sync>(
    rt: &R,
    alloc: Global,
    offers: u64,
    serves: bool,
) -> Result<((u64, u64), (usize, u64, u64)), Fail> {
    let mut pen = new_pool(alloc, 9, 8)?;
    pen.write(3, 7)?;
    let gate = OpenGate;
    let (mut chief, workers) = open_crew(alloc, 1, &gate)?;
    let back = offer_many(rt, alloc, &mut chief, &mut pen, offers)?;
    let closed = chief.close();
    let left = left_at(rt, alloc, closed, workers.into_vec(), serves)?;
    Ok((back, sums(&left)))
}

#[test]
fn a_full_queue_gives_the_job_back(rt: HostRuntime) -> Result<(), Fail> {
    let whole = (1200, 1199 * 600, 1200 * 7);
    for serves in [true, false] {
        assert_eq!(rt; left_of(&rt, rt.alloc(), 1200, serves)?, ((0, 0), whole));
        assert_eq!(rt; left_of(&rt, rt.alloc(), 1201, serves)?, ((1, 1200), whole));
        assert_eq!(rt; left_of(&rt, rt.alloc(), 5, serves)?, ((0, 0), (5, 10, 35)));
    }
    Ok(())
}

#[test]
fn nothing_to_gather(rt: HostRuntime) -> Result<(), Fail> {
    let gate = OpenGate;
    let (mut chief, workers) = open_crew(rt.alloc(), 3, &gate)?;
    assert!(rt; chief.gather(&rt).is_err());
    // A chief that is let go closes its crew.
    drop(chief);
    let spent = end_all(&rt, workers.into_vec(), true)?;
    assert_eq!(rt; spent.len(), 3);
    Ok(())
}
