//! The thread that asks for copies: it offers jobs and gathers results.

ghost use Rattle.std.specs.Prelude.{◌≡◌, ◌+◌, ◌≤◌, length, IfOk, OnOk, IfErr, OnErr};
ghost use Rattle.copy_workers.specs.Copies.{IsReady, StandsFor};
ghost use Rattle.copy_workers.specs.Crews.{with_offered, with_gathered};

use crate::copies::{CopyDone, CopyJob};
use crate::notices::Notice;
use crate::ports::{PLACES, Port};
use crate::ready::ReadyJob;
use std::marker::Model;
use std::sync::Wait;

/// No result was there.
#[derive(Clone, Copy, Debug, PartialEq, Eq)]
pub struct NotYet;

/// The one who asks a crew for copies. Contracts see which crew it is, how many workers it has, the
/// jobs that were offered and taken by the queue, and the results that were gathered, in order;
/// these lists take no memory.
pub struct Chief {
    pub(crate) jobs: Port<ReadyJob>,
    pub(crate) results: Port<CopyDone>,
    pub(crate) notice: Notice,
    pub(crate) workers: u32,
    // How many jobs were offered, and how many results gathered.
    pub(crate) offered: u64,
    pub(crate) gathered: u64,
}

impl Model for Chief {
    ghost use Rattle.std.specs.Prelude.{◌≡◌, true, None};
    ghost use Rattle.copy_workers.specs.Crews.{ChiefState, HasPorts, Counts};

    ghost Value = { ChiefState };

    ghost view = { λ c. record {
      crew = record { jobs = c.jobs.queue; results = c.results.queue; notice = c.notice.table };
      workers = c.workers;
      offered = c.jobs.put;
      gathered = c.results.taken;
    } };

    ghost invariant = { λ c. HasPorts c.workers c.jobs c.results
        × (c.notice.posts ≡ true) × (c.notice.jobs ≡ None)
        × Counts c.offered c.jobs.put × Counts c.gathered c.results.taken };
}

impl Chief {
    /// Puts a job into the queue of jobs. Takes no memory.
    ///
    /// As long as fewer than 1,200 jobs are out, offered and not gathered, neither queue is full.
    ///
    /// # Errors
    /// The job comes back only where the queue was full at one moment of the call, so that 1,200
    /// jobs or more were out. Nothing has changed.
    pub fn offer<W: Wait>(&mut self, rt: &W, job: CopyJob) -> Result<(), CopyJob>
        requires { IsReady job }
        ensures ok { OnOk result (self.new ≡ with_offered job self.old) }
        ensures back { IfErr result (λ back. back ≡ job) }
        ensures same { OnErr result (self.new ≡ self.old) }
        ensures full { OnErr result (length self.old.gathered + 1200 ≤ length self.old.offered) }
    {
        let mut job = ReadyJob::new(job);
        for _ in rt.forever() {
            match self.jobs.push(rt, job) {
                Ok(()) => {
                    self.offered = self.offered.saturating_add(1);
                    return Ok(());
                }
                Err(back) => {
                    // Each job in a full queue is out, so the chief's own count shows what the
                    // queue says.
                    if self.offered.saturating_sub(self.gathered) >= PLACES as u64 {
                        return Err(back.into_job());
                    }
                    job = back;
                }
            }
        }
        unreachable!()
    }

    /// Takes a result out of the queue of results. Takes no memory.
    ///
    /// # Errors
    /// Only where the queue of results was empty at one moment of the call. Nothing has changed.
    pub fn gather<W: Wait>(&mut self, rt: &W) -> Result<CopyDone, NotYet>
        ensures ok { IfOk result (λ done. self.new ≡ with_gathered done self.old) }
        ensures whole { IfOk result (λ done.
            StandsFor done.first done.words done.low done.receipt) }
        ensures same { OnErr result (self.new ≡ self.old) }
    {
        match self.results.pop(rt) {
            Some(done) => {
                self.gathered = self.gathered.saturating_add(1);
                Ok(done.shown())
            }
            None => Err(NotYet),
        }
    }

    /// Closes the crew: its workers end when no job is left. Takes no memory.
    ///
    /// Where more than 1,200 jobs are out then, the queue of results has no place for all of them,
    /// and the workers wait for ever.
    pub fn close(self) -> ChiefSpent
        ensures { result ≡ self }
    {
        let Chief {
            jobs,
            results,
            mut notice,
            workers,
            offered: _,
            gathered: _,
        } = self;
        notice.post(&jobs);
        ChiefSpent {
            jobs,
            results,
            notice,
            workers,
        }
    }
}

/// A chief that is let go closes its crew, so that no worker waits for it.
impl Drop for Chief {
    fn drop(self) {
        let _ = self.close();
    }
}

/// A chief whose crew is closed. Contracts see what they see of a chief.
#[derive(Drop)]
pub struct ChiefSpent {
    pub(crate) jobs: Port<ReadyJob>,
    pub(crate) results: Port<CopyDone>,
    pub(crate) notice: Notice,
    pub(crate) workers: u32,
}

impl Model for ChiefSpent {
    ghost use Rattle.std.specs.Prelude.{◌≡◌, true, Some};
    ghost use Rattle.copy_workers.specs.Crews.{ChiefState, HasPorts};

    ghost Value = { ChiefState };

    ghost view = { λ c. record {
      crew = record { jobs = c.jobs.queue; results = c.results.queue; notice = c.notice.table };
      workers = c.workers;
      offered = c.jobs.put;
      gathered = c.results.taken;
    } };

    ghost invariant = { λ c. HasPorts c.workers c.jobs c.results
        × (c.notice.posts ≡ true) × (c.notice.jobs ≡ Some c.jobs.put) };
}
