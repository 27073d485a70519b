//! How a crew is made.

ghost use Rattle.std.specs.Prelude.{◌≡◌, ◌≤◌, length, All, IfOk};
ghost use Rattle.copy_workers.specs.Crews.{opened, fresh};

use crate::chiefs::Chief;
use crate::desks::Desk;
use crate::gates::Gate;
use crate::notices::Notice;
use crate::ports::Port;
use crate::workers::{Worker, WorkerList};
use std::alloc::{AllocError, Global};

/// A crew of so many workers, with its chief. Both of its queues have 1,200 places. Each worker
/// tells the gate of its copies.
///
/// # Errors
/// Only where memory runs out.
pub fn open_crew<'g, G: Gate>(
    alloc: Global,
    workers: u32,
    gate: &'g G,
) -> Result<(Chief, WorkerList<'g, G>), AllocError>
    requires { (1 ≤ workers) × (workers ≤ 16) }
    ensures chief { IfOk result (λ c. c.0 ≡ opened c.0.crew workers) }
    ensures places { IfOk result (λ c.
        (c.0.crew.jobs.places ≡ 1200) × (c.0.crew.results.places ≡ 1200)) }
    ensures count { IfOk result (λ c. length c.1 ≡ workers) }
    ensures workers { IfOk result (λ c. All (λ w. w ≡ fresh c.0.crew) c.1) }
{
    let mut jobs = Port::open(alloc)?;
    let mut results = Port::open(alloc)?;
    let mut notice = Notice::open(alloc)?;
    let mut list = WorkerList::new(alloc);
    for _ in 0..workers {
        let desk = Desk::beside(&mut jobs, &mut results, &mut notice)?;
        list.push(Worker { desk, gate })?;
    }
    let chief = Chief {
        jobs,
        results,
        notice,
        workers,
        offered: 0,
        gathered: 0,
    };
    Ok((chief, list))
}
