//! Lines in memory whose calls fail as planned.

ghost use Rattle.std.specs.Prelude.{◌≡◌, ◌<◌, length};
ghost use Rattle.wp_outside.specs.Pieces.{IsPartOf};
ghost use Rattle.link_ends.specs.Counts.{no_link_counts};
ghost use Rattle.link_ends.specs.Reads.{IfRead, after_read, ReadMoved};
ghost use Rattle.link_ends.specs.Writes.{IfWritten, after_write, WriteMoved};

use crate::link_counts::LinkCounts;
use crate::links::{Link, LinkRead, LinkWrite};
use crate::memory_lines::MemoryLine;
use crate::plans::{Mishap, Plan, fails_call, replace_bytes};
use std::alloc::Global;
use std::marker::Model;
use std::sync::Arc;
use wp_outside::Side;

/// One side's end of a line in memory, with what is to go wrong there.
#[derive(Drop)]
pub struct PlanLine {
    line: MemoryLine,
    plans: Arc<Vec<Plan>, Global>,
    side: Side,
    connection: u32,
    reads: u64,
    writes: u64,
    counts: LinkCounts,
}

impl Model for PlanLine {
    ghost use Rattle.link_ends.specs.declared.link_counts.LinkCounts.{LinkCounts};

    ghost Value = { LinkCounts };

    ghost view = { λ l. l.counts };
}

impl PlanLine {
    /// This side's end of the connection, of which nothing was asked.
    pub(crate) fn new(
        line: MemoryLine,
        plans: Arc<Vec<Plan>, Global>,
        side: Side,
        connection: u32,
    ) -> PlanLine
        ensures { result ≡ no_link_counts }
    {
        PlanLine {
            line,
            plans,
            side,
            connection,
            reads: 0,
            writes: 0,
            counts: LinkCounts::new(),
        }
    }

    /// What this end has counted.
    pub fn counts(&self) -> LinkCounts
        ensures { result ≡ self.now }
    {
        self.counts
    }

    // Whether this call is to fail.
    fn is_to_fail(&self, at: u64, what: Mishap) -> bool {
        let call = Plan {
            side: self.side,
            connection: self.connection,
            at,
            what,
        };
        fails_call(self.plans.as_slice(), call)
    }
}

impl Link for PlanLine {
    ghost counts = { λ counts. counts };

    /// Reads as the line in memory does, unless this read is to fail.
    fn read(&mut self, buf: &mut [u8]) -> LinkRead
        requires { 0 < length buf.old }
        ensures part { IfRead result (λ n. IsPartOf n (length buf.old)) }
        ensures moved { ReadMoved result self.old self.new }
        ensures exact { self.new ≡ after_read result self.old }
    {
        let fails = self.is_to_fail(self.reads, Mishap::ReadFails);
        self.reads = self.reads.saturating_add(1);
        let answer = if fails {
            LinkRead::Failed
        } else {
            self.line.read(buf)
        };
        if let LinkRead::Bytes(count) = answer {
            let (given, _) = buf.split_at_mut(count);
            let before = self.counts.given;
            replace_bytes(
                self.plans.as_slice(),
                self.side,
                self.connection,
                before,
                given,
            );
        }
        self.counts.count_read(answer);
        answer
    }

    /// Writes as the line in memory does, unless this write is to fail.
    fn write(&mut self, bytes: &[u8]) -> LinkWrite
        requires { 0 < length bytes.now }
        ensures part { IfWritten result (λ n. IsPartOf n (length bytes.now)) }
        ensures moved { WriteMoved result self.old self.new }
        ensures exact { self.new ≡ after_write result self.old }
    {
        let fails = self.is_to_fail(self.writes, Mishap::WriteFails);
        self.writes = self.writes.saturating_add(1);
        let answer = if fails {
            LinkWrite::Failed
        } else {
            self.line.write(bytes)
        };
        self.counts.count_write(answer);
        answer
    }
}
