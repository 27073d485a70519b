//! Pairs of dials in memory.

ghost use Rattle.std.specs.Prelude.{◌≡◌, ◌≤◌, Err, IfOk};
ghost use Rattle.wp_outside.specs.Counts.{Rose};
ghost use Rattle.link_ends.specs.Counts.{no_side_counts};
ghost use Rattle.link_ends.specs.Dialling.{IsFresh};
ghost use Rattle.link_ends.specs.declared.dial_pairs.OpenFault.TheVariants.{Failed};
ghost use Rattle.link_ends.specs.declared.dial_pairs.LinkKind.TheVariants.{Tcp};

use crate::dial_pairs::{Cut, DialPair, LinkKind, OpenFault};
use crate::meetings::MeetingPoint;
use crate::memory_dials::MemoryDial;
use crate::pair_counts::PairCounts;
use std::alloc::{AllocError, Global};
use std::marker::Model;
use std::sync::{Arc, Wait};
use wp_outside::Side;

/// Opens pairs of dials whose lines are rings in memory. It knows no other kind.
#[derive(Drop)]
pub struct MemoryDials<R: Wait + Clone> {
    rt: R,
    alloc: Global,
    counts: PairCounts,
}

impl<R: Wait + Clone> Model for MemoryDials<R> {
    ghost use Rattle.link_ends.specs.Counts.{PairTotals};

    ghost Value = { PairTotals };

    ghost view = { λ p. p.counts };
}

impl<R: Wait + Clone> MemoryDials<R> {
    /// Pairs of dials that wait by this runtime. Takes no memory.
    pub fn new(rt: R, alloc: Global) -> MemoryDials<R>
        ensures { result ≡ record { near = no_side_counts; far = no_side_counts; faults = 0 } }
    {
        MemoryDials {
            rt,
            alloc,
            counts: PairCounts::new(),
        }
    }

    // Two dials that meet.
    fn pair(&self, cuts: &[Cut]) -> Result<(MemoryDial<R>, MemoryDial<R>), AllocError>
        ensures near { IfOk result (λ pair. IsFresh pair.0.counts pair.0.has_left) }
        ensures far { IfOk result (λ pair. IsFresh pair.1.counts pair.1.has_left) }
    {
        let cuts = Vec::from_slice(self.alloc, cuts)?;
        let point = Arc::new(self.alloc, MeetingPoint::new(self.alloc, cuts))?;
        let other = Arc::try_clone(&point)?;
        let near = MemoryDial::new(self.rt.clone()?, Side::Near, point);
        let far = MemoryDial::new(self.rt.clone()?, Side::Far, other);
        Ok((near, far))
    }
}

impl<R: Wait + Clone> DialPair for MemoryDials<R> {
    type Near = MemoryDial<R>;

    type Far = MemoryDial<R>;

    ghost near_counts = { λ p. p.near };

    ghost far_counts = { λ p. p.far };

    ghost faults = { λ p. p.faults };

    /// Fails for any kind but memory.
    fn open(
        &mut self,
        kind: LinkKind,
        cuts: &[Cut],
    ) -> Result<(MemoryDial<R>, MemoryDial<R>), OpenFault>
        ensures near { IfOk result (λ pair. IsFresh pair.0.counts pair.0.has_left) }
        ensures far { IfOk result (λ pair. IsFresh pair.1.counts pair.1.has_left) }
        ensures cause { result ≡ Err Failed → Rose self.old.faults self.new.faults }
        ensures kept { self.old.faults ≤ self.new.faults }
        ensures near_stays { self.new.near ≡ self.old.near }
        ensures far_stays { self.new.far ≡ self.old.far }
        ensures tcp { kind ≡ Tcp → result ≡ Err Failed }
    {
        match kind {
            LinkKind::Tcp => {
                self.counts.count_fault();
                Err(OpenFault::Failed)
            }
            LinkKind::Memory => match self.pair(cuts) {
                Ok(pair) => Ok(pair),
                Err(AllocError) => Err(OpenFault::Memory),
            },
        }
    }

    fn close(&mut self, near: MemoryDial<R>, far: MemoryDial<R>) {
        self.counts.count_close(near.counts(), far.counts());
    }
}
