//! Sources in memory.

ghost use Rattle.std.specs.Prelude.{◌≡◌, ℕ, ◌<◌, ◌≤◌, Some, [], ◌≢◌, length, min};
ghost use Rattle.wp_outside.specs.Counts.{Rose};
ghost use Rattle.wp_outside.specs.Pieces.{IfBytes, MatchFailed, IsPartOf, Gives, left_after};
ghost use Rattle.wp_outside.specs.MemoryForms.{read_answer, after_read, taken_of};

use crate::copying::give_front;
use crate::plans::CallPlan;
use crate::sources::{Source, Taken};
use plain_lists::ByteQueue;
use std::marker::Model;

/// A source of given bytes, whose calls fail at given numbers.
#[derive(Drop)]
pub struct MemorySource {
    rest: ByteQueue,
    plan: CallPlan,
}

impl Model for MemorySource {
    ghost use Rattle.wp_outside.specs.MemoryForms.{PlannedSource};

    ghost Value = { PlannedSource };

    ghost view = { λ s. record { left = s.rest; plan = s.plan } };
}

impl MemorySource {
    /// A source of these bytes. Its calls are numbered from 0, and those in `fail_at` fail.
    pub fn new(bytes: Vec<u8>, fail_at: Vec<u32>) -> MemorySource
        ensures { result ≡ record {
          left = bytes.items;
          plan = record { fail_at = fail_at.items; call = 0; faults = 0 };
        } }
    {
        MemorySource {
            rest: ByteQueue::from_vec(bytes),
            plan: CallPlan::new(fail_at),
        }
    }
}

impl Source for MemorySource {
    ghost left = { λ s. Some s.left };

    ghost faults = { λ s. s.plan.faults };

    /// Reads as many bytes as there are, unless this call is to fail.
    fn read(&mut self, buf: &mut [u8]) -> Taken
        requires { 0 < length buf.old }
        ensures part { IfBytes result (λ n. IsPartOf n (length buf.old)) }
        ensures content { Gives result self.old.left buf.old buf.new }
        ensures rest { Some self.new.left ≡ left_after result (Some self.old.left) }
        ensures cause { MatchFailed result (Rose self.old.plan.faults self.new.plan.faults)
            (self.new.plan.faults ≡ self.old.plan.faults) }
        ensures kept { self.old.plan.faults ≤ self.new.plan.faults }
        ensures answer { result ≡ read_answer self.old (length buf.old) }
        ensures after { self.new ≡ after_read self.old (length buf.old) }
    {
        let fails = self.plan.is_next_to_fail();
        self.plan.count(fails);
        if fails {
            return Taken::Failed;
        }
        match give_front(&mut self.rest, buf) {
            0 => Taken::End,
            count => Taken::Bytes(count),
        }
    }
}

/// A source of given bytes that never fails.
#[derive(Drop)]
pub struct CleanSource {
    rest: ByteQueue,
}

impl Model for CleanSource {
    ghost use Rattle.std.specs.Prelude.{ℕ, List};

    ghost Value = { List ℕ };

    ghost view = { λ s. s.rest };
}

impl CleanSource {
    /// A source of these bytes.
    pub fn new(bytes: Vec<u8>) -> CleanSource
        ensures { result ≡ bytes.items }
    {
        CleanSource {
            rest: ByteQueue::from_vec(bytes),
        }
    }
}

impl Source for CleanSource {
    ghost left = { λ s. Some s };

    ghost faults = { λ _. 0 };

    /// Reads as many bytes as there are.
    fn read(&mut self, buf: &mut [u8]) -> Taken
        requires { 0 < length buf.old }
        ensures part { IfBytes result (λ n. IsPartOf n (length buf.old)) }
        ensures content { Gives result self.old buf.old buf.new }
        ensures rest { Some self.new ≡ left_after result (Some self.old) }
        ensures cause { MatchFailed result (Rose 0 0) (◌≡◌ {A = ℕ} 0 0) }
        ensures kept { 0 ≤ 0 }
        ensures answer { result ≡ taken_of self.old (length buf.old) }
    {
        match give_front(&mut self.rest, buf) {
            0 => Taken::End,
            count => Taken::Bytes(count),
        }
    }
}
