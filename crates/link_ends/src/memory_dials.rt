//! Dials in memory.

ghost use Rattle.std.specs.Prelude.{◌≡◌, ◌⊎◌, ◌<◌, ◌≤◌, true, false};
ghost use Rattle.link_ends.specs.Counts.{no_link_counts, no_dial_counts};
ghost use Rattle.link_ends.specs.Dialling.{IfLink, DialMoved};

use crate::dial_counts::DialCounts;
use crate::dials::{Dial, Dialled};
use crate::meetings::{MeetingPoint, Met};
use crate::memory_lines::MemoryLine;
use std::alloc::Global;
use std::marker::Model;
use std::sync::{Arc, Wait};
use wp_outside::Side;

/// One side's dial in memory. A dial waits until the other side dials too or has left.
#[derive(Drop)]
pub struct MemoryDial<R: Wait + Clone> {
    rt: R,
    side: Side,
    point: Arc<MeetingPoint, Global>,
    latest: u32,
    has_left: bool,
    counts: DialCounts,
}

impl<R: Wait + Clone> Model for MemoryDial<R> {
    ghost use Rattle.std.specs.Prelude.{◌≤◌};
    ghost use Rattle.link_ends.specs.MemoryEnds.{Caller};

    ghost Value = { Caller };

    ghost view = { λ d. record { counts = d.counts; latest = d.latest; has_left = d.has_left } };

    ghost invariant = { λ d. d.counts.lines_out ≤ d.latest };
}

impl<R: Wait + Clone> MemoryDial<R> {
    /// This side's dial of the pair that meets here.
    pub(crate) fn new(rt: R, side: Side, point: Arc<MeetingPoint, Global>) -> MemoryDial<R>
        ensures { result ≡ record { counts = no_dial_counts; latest = 0; has_left = false } }
    {
        MemoryDial {
            rt,
            side,
            point,
            latest: 0,
            has_left: false,
            counts: DialCounts::new(),
        }
    }

    /// What this dial has counted.
    pub fn counts(&self) -> DialCounts
        ensures { result ≡ self.now.counts }
    {
        self.counts
    }
}

impl<R: Wait + Clone> Dial for MemoryDial<R> {
    type Line = MemoryLine;

    ghost dial_counts = { λ d. d.counts };

    ghost has_left = { λ d. d.has_left };

    ghost latest = { λ d. d.latest };

    /// Gives a line once the other side dials too. Where that has left and no line waits, answers
    /// Gone if its last word was heard, and else Failed.
    fn dial(&mut self, heard: bool) -> Dialled<MemoryLine>
        requires { self.old.has_left ≡ false }
        ensures number { IfLink result (λ connection _. (self.old.latest < connection)
            × (self.new.latest ≡ connection)) }
        ensures line { IfLink result (λ _ line. line.counts ≡ no_link_counts) }
        ensures moved { DialMoved result heard self.old.counts self.new.counts }
        ensures rising { self.old.latest ≤ self.new.latest }
        ensures stays { self.new.has_left ≡ false }
        ensures unheard { (self.new.counts.faults ≡ self.old.counts.faults) ⊎ (heard ≡ false) }
    {
        match self.point.dial(&self.rt, self.side, self.latest) {
            Met::Line(end) => {
                self.latest = end.connection;
                self.counts.count_line();
                Dialled::Link {
                    connection: end.connection,
                    link: end.line,
                }
            }
            Met::Alone if heard => {
                self.counts.count_parting();
                Dialled::Gone
            }
            Met::Alone => {
                self.counts.count_fault();
                Dialled::Failed
            }
            Met::Memory => Dialled::Memory,
        }
    }

    /// Drops the line, which is the other end's end.
    fn back(&mut self, line: MemoryLine) {
        self.counts.count_back(line.counts());
    }

    /// A dial of the other side that waits is answered.
    fn leave(&mut self) {
        self.has_left = true;
        self.point.leave(&self.rt, self.side);
    }
}
