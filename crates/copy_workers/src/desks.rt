//! What a worker has at hand: its ports at the two queues, and the notice that its crew is closed.

ghost use Rattle.std.specs.Prelude.{◌≡◌, ◌<◌, ◌-◌, true, None, [], ◌∷◌, ◌++◌};
ghost use Rattle.std.specs.Prelude.{IsTrue, IsSome, IfOk, OnOk};
ghost use Rattle.std.specs.List.{AllZip};
ghost use Rattle.copy_workers.specs.Copies.{IsCopyOf};
ghost use Rattle.copy_workers.specs.Crews.{fresh};

use crate::copies::{CopyDone, copy_one};
use crate::gates::Gate;
use crate::notices::Notice;
use crate::ports::Port;
use crate::ready::ReadyJob;
use std::alloc::AllocError;
use std::marker::Model;
use std::sync::Wait;
use std::thread;

/// The ports of a worker and its notice. Contracts see which crew it is of, the jobs that were
/// taken and their copies, in order, and the jobs that were offered in all, once this was told.
#[derive(Drop)]
pub struct Desk {
    pub jobs: Port<ReadyJob>,
    pub results: Port<CopyDone>,
    pub notice: Notice,
}

impl Model for Desk {
    ghost use Rattle.std.specs.Prelude.{◌≡◌, false};
    ghost use Rattle.copy_workers.specs.Crews.{WorkerState, HasDesk};

    ghost Value = { WorkerState };

    ghost view = { λ d. record {
      crew = record { jobs = d.jobs.queue; results = d.results.queue; notice = d.notice.table };
      jobs = d.jobs.taken;
      copies = d.results.put;
      told = d.notice.jobs;
    } };

    ghost invariant = { λ d. HasDesk d.jobs d.results × (d.notice.posts ≡ false) };
}

impl Desk {
    /// A desk at the queues of these ports, with one part of each, and a reader of this notice.
    pub fn beside(
        jobs: &mut Port<ReadyJob>,
        results: &mut Port<CopyDone>,
        notice: &mut Notice,
    ) -> Result<Desk, AllocError>
        requires parts { (1 < jobs.old.parts) × (1 < results.old.parts) }
        requires poster { notice.old.posts ≡ true }
        ensures desk { IfOk result (λ d. d ≡ fresh record {
          jobs = jobs.old.queue;
          results = results.old.queue;
          notice = notice.old.table;
        }) }
        ensures jobs { OnOk result
            (jobs.new ≡ record jobs.old { parts = jobs.old.parts - 1 }) }
        ensures results { OnOk result
            (results.new ≡ record results.old { parts = results.old.parts - 1 }) }
        ensures notice { notice.new ≡ notice.old }
    {
        Ok(Desk {
            jobs: jobs.share()?,
            results: results.share()?,
            notice: notice.reader()?,
        })
    }

    /// Whether the crew is closed. Then the desk knows which jobs were offered in all.
    pub fn is_closed(&mut self) -> bool
        ensures told { IsTrue result → IsSome self.new.told }
        ensures crew { self.new.crew ≡ self.old.crew }
    {
        self.notice.is_posted()
    }

    /// Takes the next job, copies it and puts the result in. False where there was none: the queue
    /// was empty at one moment.
    pub fn copy_next<W: Wait, G: Gate>(&mut self, rt: &W, gate: &G) -> bool
        ensures same { (self.new.crew ≡ self.old.crew) × (self.new.told ≡ self.old.told) }
        ensures copied { AllZip IsCopyOf self.new.jobs self.new.copies }
    {
        let Some(job) = self.jobs.pop(rt) else {
            return false;
        };
        let job = job.into_job();
        let id = job.id;
        gate.enter(id);
        let done = copy_one(job);
        gate.leave(id);
        put(rt, &mut self.results, done);
        true
    }
}

// Puts a result in, where need be again and again.
fn put<W: Wait>(rt: &W, results: &mut Port<CopyDone>, done: CopyDone)
    ensures { results.new ≡ record results.old { put = results.old.put ++ done ∷ [] } }
{
    let mut done = done;
    for _ in rt.forever() {
        match results.push(rt, done) {
            Ok(()) => return,
            Err(back) => {
                done = back;
                thread::yield_now();
            }
        }
    }
    unreachable!()
}
