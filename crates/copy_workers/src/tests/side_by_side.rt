//! Two workers copy beside each other.

use super::*;
use std::sync::atomic::{AtomicU64, Ordering};

const MOST_TURNS: u32 = 1_000_000;

// The first job is not copied before the copy of the second is done.
#[derive(Drop)]
struct Second {
    left: AtomicU64,
    seen: AtomicU64,
}

impl Gate for Second {
    fn enter(&self, job: u64) {
        if job != 1 {
            return;
        }
        for _ in 0..MOST_TURNS {
            if self.left.load(Ordering::SeqCst) == 1 {
                self.seen.store(1, Ordering::SeqCst);
                return;
            }
            thread::yield_now();
        }
    }

    fn leave(&self, job: u64) {
        if job == 2 {
            self.left.store(1, Ordering::SeqCst);
        }
    }
}

// Both jobs go to a crew of two. It says whether the one copy ended within the other, and the sums
// of what was left.
fn two_jobs<R: Threads + Wait + Sync>(
    rt: &R,
    alloc: Global,
) -> Result<(u64, (usize, u64, u64)), Fail> {
    let gate = Second {
        left: AtomicU64::new(0),
        seen: AtomicU64::new(0),
    };
    let mut pen = new_pool(alloc, 9, 8)?;
    pen.write(3, 7)?;
    let (mut chief, workers) = open_crew(alloc, 2, &gate)?;
    let _ = chief.offer(rt, job_of(alloc, &mut pen, 1, 0, 8)?);
    let _ = chief.offer(rt, job_of(alloc, &mut pen, 2, 0, 8)?);
    let closed = chief.close();
    let left = left_at(rt, alloc, closed, workers.into_vec(), true)?;
    Ok((gate.seen.load(Ordering::SeqCst), sums(&left)))
}

#[test]
fn crew_side_by_side(rt: HostRuntime) -> Result<(), Fail> {
    assert_eq!(rt; two_jobs(&rt, rt.alloc())?, (1, (2, 3, 14)));
    Ok(())
}
