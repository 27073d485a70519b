//! Pairs of dials in memory that fail as planned.

ghost use Rattle.std.specs.Prelude.{◌≡◌, IfOk};
ghost use Rattle.link_ends.specs.Counts.{no_side_counts};
ghost use Rattle.link_ends.specs.Dialling.{IsFresh};

use crate::dial_pairs::{Cut, DialPair, LinkKind, OpenFault};
use crate::memory_pairs::MemoryDials;
use crate::pair_counts::PairCounts;
use crate::plan_dials::PlanDial;
use crate::plans::Plan;
use std::alloc::{AllocError, Global};
use std::marker::Model;
use std::sync::{Arc, Wait};
use wp_outside::Side;

/// Opens pairs of dials in memory of which each fails as planned. They tell no content.
#[derive(Drop)]
pub struct PlanDials<R: Wait + Clone> {
    memory: MemoryDials<R>,
    plans: Vec<Plan>,
    alloc: Global,
    counts: PairCounts,
}

impl<R: Wait + Clone> Model for PlanDials<R> {
    ghost use Rattle.link_ends.specs.Counts.{PairTotals};

    ghost Value = { PairTotals };

    ghost view = { λ p. p.counts };
}

impl<R: Wait + Clone> PlanDials<R> {
    /// Pairs of dials with what is to go wrong in each. Takes no memory.
    pub fn new(rt: R, alloc: Global, plans: Vec<Plan>) -> PlanDials<R>
        ensures { result ≡ record { near = no_side_counts; far = no_side_counts; faults = 0 } }
    {
        PlanDials {
            memory: MemoryDials::new(rt, alloc),
            plans,
            alloc,
            counts: PairCounts::new(),
        }
    }

    // Two dials in memory, each with all plans.
    fn pair(
        &mut self,
        kind: LinkKind,
        cuts: &[Cut],
    ) -> Result<(PlanDial<R>, PlanDial<R>), OpenFault>
        ensures near { IfOk result (λ pair. IsFresh pair.0.counts pair.0.has_left) }
        ensures far { IfOk result (λ pair. IsFresh pair.1.counts pair.1.has_left) }
        ensures counts { self.new ≡ self.old }
    {
        let (near, far) = self.memory.open(kind, cuts)?;
        match share(self.alloc, self.plans.as_slice()) {
            Ok((plans, others)) => Ok((
                PlanDial::new(near, plans, Side::Near),
                PlanDial::new(far, others, Side::Far),
            )),
            Err(AllocError) => Err(OpenFault::Memory),
        }
    }
}

// Two owners of a copy of the plans.
fn share(
    alloc: Global,
    plans: &[Plan],
) -> Result<(Arc<Vec<Plan>, Global>, Arc<Vec<Plan>, Global>), AllocError> {
    let one = Arc::new(alloc, Vec::from_slice(alloc, plans)?)?;
    let other = Arc::try_clone(&one)?;
    Ok((one, other))
}

impl<R: Wait + Clone> DialPair for PlanDials<R> {
    type Near = PlanDial<R>;

    type Far = PlanDial<R>;

    ghost near_counts = { λ p. p.near };

    ghost far_counts = { λ p. p.far };

    ghost faults = { λ p. p.faults };

    /// Fails for any kind but memory.
    fn open(
        &mut self,
        kind: LinkKind,
        cuts: &[Cut],
    ) -> Result<(PlanDial<R>, PlanDial<R>), OpenFault> {
        match self.pair(kind, cuts) {
            Ok(pair) => Ok(pair),
            Err(OpenFault::Failed) => {
                self.counts.count_fault();
                Err(OpenFault::Failed)
            }
            Err(OpenFault::Memory) => Err(OpenFault::Memory),
        }
    }

    fn close(&mut self, near: PlanDial<R>, far: PlanDial<R>) {
        self.counts.count_close(near.counts(), far.counts());
    }
}
