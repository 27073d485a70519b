//! Counted calls, of which some are to fail.

ghost use Rattle.std.specs.Prelude.{◌≡◌, ◌≤◌};
ghost use Rattle.wp_outside.specs.MemoryForms.{is_planned, plan_after};

use std::marker::Model;

/// The numbers of the calls that are to fail, and how many calls and failures there were.
#[derive(Drop)]
pub(crate) struct CallPlan {
    fail_at: Vec<u32>,
    call: u64,
    faults: u64,
}

impl Model for CallPlan {
    ghost use Rattle.wp_outside.specs.MemoryForms.{Plan};

    ghost Value = { Plan };

    ghost view = { λ p. record { fail_at = p.fail_at.items; call = p.call; faults = p.faults } };
}

impl CallPlan {
    /// Calls numbered from 0, of which those in `fail_at` are to fail.
    pub(crate) fn new(fail_at: Vec<u32>) -> CallPlan
        ensures { result ≡ record { fail_at = fail_at.items; call = 0; faults = 0 } }
    {
        CallPlan {
            fail_at,
            call: 0,
            faults: 0,
        }
    }

    /// Whether the next call is to fail.
    pub(crate) fn is_next_to_fail(&self) -> bool
        ensures { result ≡ is_planned self.now }
    {
        let call = self.call;
        self.fail_at.iter().any(|n| u64::from(*n) == call)
    }

    /// Counts a call, and whether it failed. Both counts stand still at their last value.
    pub(crate) fn count(&mut self, failed: bool)
        ensures after { self.new ≡ plan_after failed self.old }
        ensures kept { self.old.faults ≤ self.new.faults }
    {
        self.call = self.call.saturating_add(1);
        if failed {
            self.faults = self.faults.saturating_add(1);
        }
    }
}
