//! A sink in memory.

ghost use Rattle.std.specs.Prelude.{◌≡◌, ℕ, ◌<◌, ◌≤◌, ◌++◌, Some, [], length, min, take, is_err, IfOk, OnErr, MatchResult};
ghost use Rattle.wp_outside.specs.Counts.{Rose};
ghost use Rattle.wp_outside.specs.Pieces.{IsPartOf, held_with};
ghost use Rattle.wp_outside.specs.MemoryForms.{is_refused, after_write};

use crate::plans::CallPlan;
use crate::rooms::Room;
use crate::sinks::{Failed, Sink};
use std::marker::Model;

/// A sink that writes over given room from its front, and whose calls fail at given numbers.
#[derive(Drop)]
pub struct MemorySink {
    room: Room,
    plan: CallPlan,
}

impl Model for MemorySink {
    ghost use Rattle.wp_outside.specs.MemoryForms.{PlannedSink};

    ghost Value = { PlannedSink };

    ghost view = { λ s. record { held = s.room.held; spare = s.room.spare; plan = s.plan } };
}

impl MemorySink {
    /// A sink over this room. Its calls are numbered from 0, and those in `fail_at` fail.
    pub fn new(room: Vec<u8>, fail_at: Vec<u32>) -> MemorySink
        ensures { result ≡ record {
          held = [];
          spare = room.items;
          plan = record { fail_at = fail_at.items; call = 0; faults = 0 };
        } }
    {
        MemorySink {
            room: Room::new(room),
            plan: CallPlan::new(fail_at),
        }
    }

    /// The bytes that were written.
    pub fn held(&self) -> &[u8]
        ensures { result.now ≡ self.now.held }
    {
        self.room.held()
    }

    /// The room, with what was written at its front.
    pub fn into_room(self) -> Vec<u8>
        ensures { result.items ≡ self.held ++ self.spare }
    {
        self.room.into_bytes()
    }
}

impl Sink for MemorySink {
    ghost held = { λ s. Some s.held };

    ghost faults = { λ s. s.plan.faults };

    /// Writes as many bytes as there are places, unless none is left or this call is to fail.
    fn write(&mut self, bytes: &[u8]) -> Result<usize, Failed>
        requires { 0 < length bytes.now }
        ensures part { IfOk result (λ n. IsPartOf n (length bytes.now)) }
        ensures content { MatchResult result
            (λ n. Some self.new.held ≡ held_with (Some self.old.held) (take n bytes.now))
            (λ _. Some self.new.held ≡ Some self.old.held) }
        ensures cause { OnErr result (Rose self.old.plan.faults self.new.plan.faults) }
        ensures kept { self.old.plan.faults ≤ self.new.plan.faults }
        ensures refused { is_err result ≡ is_refused self.old }
        ensures count { IfOk result (λ n. n ≡ min (length bytes.now) (length self.old.spare)) }
        ensures after { self.new ≡ after_write self.old bytes.now }
    {
        let fails = self.plan.is_next_to_fail() || self.room.is_full();
        self.plan.count(fails);
        if fails {
            return Err(Failed);
        }
        Ok(self.room.write(bytes))
    }
}
