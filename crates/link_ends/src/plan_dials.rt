//! Dials in memory that fail as planned.

ghost use Rattle.std.specs.Prelude.{◌≡◌, false};
ghost use Rattle.link_ends.specs.Dialling.{IsFresh};

use crate::dial_counts::DialCounts;
use crate::dials::{Dial, Dialled};
use crate::memory_dials::MemoryDial;
use crate::plan_lines::PlanLine;
use crate::plans::{Plan, fails_dial};
use std::alloc::Global;
use std::marker::Model;
use std::sync::{Arc, Wait};
use wp_outside::Side;

/// One side's dial in memory, with what is to go wrong there.
#[derive(Drop)]
pub struct PlanDial<R: Wait + Clone> {
    dial: MemoryDial<R>,
    plans: Arc<Vec<Plan>, Global>,
    side: Side,
    dials: u64,
    counts: DialCounts,
}

impl<R: Wait + Clone> Model for PlanDial<R> {
    ghost use Rattle.std.specs.Prelude.{◌≤◌};
    ghost use Rattle.link_ends.specs.MemoryEnds.{Caller};

    ghost Value = { Caller };

    ghost view = { λ d. record {
      counts = d.counts;
      latest = d.dial.latest;
      has_left = d.dial.has_left;
    } };

    ghost invariant = { λ d. d.counts.lines_out ≤ d.dial.latest };
}

impl<R: Wait + Clone> PlanDial<R> {
    /// This side's dial, of which nothing was asked.
    pub(crate) fn new(dial: MemoryDial<R>, plans: Arc<Vec<Plan>, Global>, side: Side) -> PlanDial<R>
        requires { dial.has_left ≡ false }
        ensures { IsFresh result.counts result.has_left }
    {
        PlanDial {
            dial,
            plans,
            side,
            dials: 0,
            counts: DialCounts::new(),
        }
    }

    /// What this dial has counted.
    pub fn counts(&self) -> DialCounts
        ensures { result ≡ self.now.counts }
    {
        self.counts
    }
}

impl<R: Wait + Clone> Dial for PlanDial<R> {
    type Line = PlanLine;

    ghost dial_counts = { λ d. d.counts };

    ghost has_left = { λ d. d.has_left };

    ghost latest = { λ d. d.latest };

    /// Dials as the dial in memory does, unless this dial is to fail.
    fn dial(&mut self, heard: bool) -> Dialled<PlanLine> {
        let fails = fails_dial(self.plans.as_slice(), self.side, self.dials);
        self.dials = self.dials.saturating_add(1);
        if fails {
            self.counts.count_fault();
            return Dialled::Failed;
        }
        let Ok(plans) = Arc::try_clone(&self.plans) else {
            return Dialled::Memory;
        };
        match self.dial.dial(heard) {
            Dialled::Link { connection, link } => {
                self.counts.count_line();
                Dialled::Link {
                    connection,
                    link: PlanLine::new(link, plans, self.side, connection),
                }
            }
            Dialled::Gone => {
                self.counts.count_parting();
                Dialled::Gone
            }
            Dialled::Failed => {
                self.counts.count_fault();
                Dialled::Failed
            }
            Dialled::Memory => Dialled::Memory,
        }
    }

    /// Drops the line, which is the other end's end.
    fn back(&mut self, line: PlanLine) {
        self.counts.count_back(line.counts());
    }

    fn leave(&mut self) {
        self.dial.leave();
    }
}
