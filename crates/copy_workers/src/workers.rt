//! Those who copy for a crew.

ghost use Rattle.std.specs.Prelude.{◌≡◌, IsSome};
ghost use Rattle.std.specs.List.{AllZip};
ghost use Rattle.copy_workers.specs.Copies.{IsCopyOf};

use crate::desks::Desk;
use crate::gates::Gate;
use plain_lists::PlainList;
use std::marker::Model;
use std::sync::Wait;
use std::thread;

/// Workers of a crew.
pub type WorkerList<'g, G> = PlainList<Worker<'g, G>>;

/// Workers that have ended.
pub type SpentList = PlainList<Spent>;

/// One who copies for a crew. Contracts see what they see of a worker that has ended.
#[derive(Drop)]
pub struct Worker<'g, G: Gate> {
    pub(crate) desk: Desk,
    pub(crate) gate: &'g G,
}

impl<'g, G: Gate> Model for Worker<'g, G> {
    ghost use Rattle.copy_workers.specs.Crews.{WorkerState};

    ghost Value = { WorkerState };

    ghost view = { λ w. w.desk };
}

/// A worker that has ended. Contracts see which crew it was of, the jobs that it took and their
/// copies, in order, and the jobs that were offered in all, as it was told; these lists take no
/// memory.
#[derive(Drop)]
pub struct Spent {
    pub(crate) desk: Desk,
}

impl Model for Spent {
    ghost use Rattle.copy_workers.specs.Crews.{WorkerState};

    ghost Value = { WorkerState };

    ghost view = { λ s. s.desk };
}

impl<'g, G: Gate> Worker<'g, G> {
    /// Copies jobs until the crew is closed and no job is left: it ends only where the queue of
    /// jobs was empty at one moment of the call, after it was told that the crew is closed. The
    /// gate's `enter` is called with a job's id before its copy, and `leave` behind it. Where there
    /// is no place for a result, the worker tries again until there is one.
    pub fn serve<W: Wait>(self, rt: &W) -> Spent
        ensures crew { result.crew ≡ self.entry.crew }
        ensures told { IsSome result.told }
        ensures copied { AllZip IsCopyOf result.jobs result.copies }
    {
        let Worker { mut desk, gate } = self;
        for _ in rt.forever() {
            // Asked before the queue is: no job comes behind the close, so one that is left is
            // still found.
            let closed = desk.is_closed();
            if desk.copy_next(rt, gate) {
                continue;
            }
            if closed {
                return Spent { desk };
            }
            thread::yield_now();
        }
        unreachable!()
    }
}
