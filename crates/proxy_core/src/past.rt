//! The copies that a proxy had when memory ran out behind the last of them.

ghost use Rattle.std.specs.Prelude.{◌≡◌};
ghost use Rattle.half_model.specs.Jobs.{handed};
ghost use Rattle.owed_groups.specs.Lending.{done_of};

use copy_workers::CopyDone;
use send_half::SendHalf;
use std::marker::Model;
use std::snapshot::Snapshot;

/// Copies that were all back, which only proofs read: the sending half has made their frames, and
/// forgets them then. It takes no memory.
#[derive(Drop)]
pub(crate) struct Past {
    // The half before the last of them was handed back, and that copy.
    half: Snapshot<SendHalf>,
    done: Snapshot<CopyDone>,
}

impl Model for Past {
    ghost use Rattle.half_model.specs.Jobs.{handed};
    ghost use Rattle.owed_groups.specs.Lending.{done_of};
    ghost use Rattle.proxy_core.specs.PastJobs.{PastJobs};

    ghost Value = { PastJobs };

    ghost view = { λ past. record {
      jobs = handed (done_of past.done.value) past.half.value.jobs;
    } };
}

impl Past {
    /// The copies of a half once this one is handed back.
    pub(crate) fn behind(sending: &SendHalf, done: &CopyDone) -> Past
        ensures { result.jobs ≡ handed (done_of done.now) sending.now.jobs }
    {
        Past {
            half: Snapshot::of(sending),
            done: Snapshot::of(done),
        }
    }
}
