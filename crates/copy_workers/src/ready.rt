//! A job that can be copied, in a type that keeps that.

ghost use Rattle.std.specs.Prelude.{◌≡◌};
ghost use Rattle.copy_workers.specs.Copies.{IsReady};

use crate::copies::CopyJob;
use std::marker::Model;

/// A job whose words lie in its pool and whose eye has loaded nothing. Contracts see the job.
#[derive(Drop)]
pub struct ReadyJob {
    job: CopyJob,
}

impl Model for ReadyJob {
    ghost use Rattle.copy_workers.specs.declared.copies.CopyJob.{CopyJob};
    ghost use Rattle.copy_workers.specs.Copies.{IsReady};

    ghost Value = { CopyJob };

    ghost view = { λ r. r.job };

    ghost invariant = { λ r. IsReady r.job };
}

impl ReadyJob {
    pub fn new(job: CopyJob) -> ReadyJob
        requires { IsReady job }
        ensures { result ≡ job }
    {
        ReadyJob { job }
    }

    pub fn into_job(self) -> CopyJob
        ensures same { result ≡ self }
        ensures ready { IsReady result }
    {
        self.job
    }
}
