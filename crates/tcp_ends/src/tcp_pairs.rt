//! Pairs of dials over TCP or in memory.

ghost use Rattle.std.specs.Prelude.{◌≡◌, IfOk};
ghost use Rattle.link_ends.specs.Counts.{no_side_counts};
ghost use Rattle.link_ends.specs.Dialling.{IsFresh};

use crate::memory_callers::MemoryCaller;
use crate::sockets::{NoLine, open_port};
use crate::tcp_dials::{TcpDial, Way};
use link_ends::{Cut, DialPair, LinkKind, MemoryDials, OpenFault, PairCounts};
use std::alloc::Global;
use std::marker::Model;
use std::net::Net;
use std::sync::Wait;

/// Opens pairs of dials whose lines are TCP on the loopback interface, or rings in memory.
#[derive(Drop)]
pub struct TcpDials<R: Wait + Net + Clone> {
    rt: R,
    alloc: Global,
    counts: PairCounts,
}

impl<R: Wait + Net + Clone> Model for TcpDials<R> {
    ghost use Rattle.link_ends.specs.Counts.{PairTotals};

    ghost Value = { PairTotals };

    ghost view = { λ p. p.counts };
}

impl<R: Wait + Net + Clone> TcpDials<R> {
    /// Pairs of dials that wait by this runtime. Takes no memory.
    pub fn new(rt: R, alloc: Global) -> TcpDials<R>
        ensures { result ≡ record { near = no_side_counts; far = no_side_counts; faults = 0 } }
    {
        TcpDials {
            rt,
            alloc,
            counts: PairCounts::new(),
        }
    }

    // A new pair, of which nothing is counted yet.
    fn pair(&self, kind: LinkKind, cuts: &[Cut]) -> Result<(TcpDial<R>, TcpDial<R>), NoLine>
        ensures near { IfOk result (λ pair. IsFresh pair.0.counts pair.0.has_left) }
        ensures far { IfOk result (λ pair. IsFresh pair.1.counts pair.1.has_left) }
    {
        let (near, far) = match kind {
            LinkKind::Memory => self.memory_ways(cuts)?,
            LinkKind::Tcp => {
                let (near, far) = open_port(&self.rt, self.alloc)?;
                (Way::Near(near), Way::Far(far))
            }
        };
        let near_cuts = Vec::from_slice(self.alloc, cuts)?;
        let far_cuts = Vec::from_slice(self.alloc, cuts)?;
        Ok((
            TcpDial::new(self.rt.clone()?, near, near_cuts),
            TcpDial::new(self.rt.clone()?, far, far_cuts),
        ))
    }

    // Both sides' ways in memory.
    fn memory_ways(&self, cuts: &[Cut]) -> Result<(Way<R>, Way<R>), NoLine> {
        let mut memory = MemoryDials::new(self.rt.clone()?, self.alloc);
        match memory.open(LinkKind::Memory, cuts) {
            Ok((near, far)) => Ok((
                Way::Memory(MemoryCaller { dial: near }),
                Way::Memory(MemoryCaller { dial: far }),
            )),
            Err(OpenFault::Failed) => Err(NoLine::Failed),
            Err(OpenFault::Memory) => Err(NoLine::Memory),
        }
    }
}

impl<R: Wait + Net + Clone> DialPair for TcpDials<R> {
    type Near = TcpDial<R>;

    type Far = TcpDial<R>;

    ghost near_counts = { λ p. p.near };

    ghost far_counts = { λ p. p.far };

    ghost faults = { λ p. p.faults };

    /// Fails where the system gives no port.
    fn open(
        &mut self,
        kind: LinkKind,
        cuts: &[Cut],
    ) -> Result<(TcpDial<R>, TcpDial<R>), OpenFault> {
        match self.pair(kind, cuts) {
            Ok(pair) => Ok(pair),
            Err(NoLine::Memory) => Err(OpenFault::Memory),
            Err(_) => {
                self.counts.count_fault();
                Err(OpenFault::Failed)
            }
        }
    }

    fn close(&mut self, near: TcpDial<R>, far: TcpDial<R>) {
        self.counts.count_close(near.counts(), far.counts());
    }
}
