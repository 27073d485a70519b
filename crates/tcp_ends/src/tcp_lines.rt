//! Lines over TCP or in memory.

ghost use Rattle.std.specs.Prelude.{◌≡◌, ◌<◌, length};
ghost use Rattle.wp_outside.specs.Pieces.{IsPartOf};
ghost use Rattle.link_ends.specs.Counts.{no_link_counts};
ghost use Rattle.link_ends.specs.Reads.{IfRead, after_read, ReadMoved};
ghost use Rattle.link_ends.specs.Writes.{IfWritten, after_write, WriteMoved};

use crate::line_ends::LineEnd;
use link_ends::{Link, LinkCounts, LinkRead, LinkWrite};
use std::marker::Model;

/// One side's end of a line. The four bytes of the connection's number are in no count.
#[derive(Drop)]
pub struct TcpLine {
    end: LineEnd,
    counts: LinkCounts,
}

impl Model for TcpLine {
    ghost use Rattle.link_ends.specs.declared.link_counts.LinkCounts.{LinkCounts};

    ghost Value = { LinkCounts };

    ghost view = { λ l. l.counts };
}

impl TcpLine {
    /// An end of which nothing was asked.
    pub(crate) fn new(end: LineEnd) -> TcpLine
        ensures { result ≡ no_link_counts }
    {
        TcpLine {
            end,
            counts: LinkCounts::new(),
        }
    }

    /// What this end has counted.
    pub fn counts(&self) -> LinkCounts
        ensures { result ≡ self.now }
    {
        self.counts
    }
}

impl Link for TcpLine {
    ghost counts = { λ counts. counts };

    /// Ended is the other end's end, Again a read that would wait; any other error is a failure.
    fn read(&mut self, buf: &mut [u8]) -> LinkRead
        requires { 0 < length buf.old }
        ensures part { IfRead result (λ n. IsPartOf n (length buf.old)) }
        ensures moved { ReadMoved result self.old self.new }
        ensures exact { self.new ≡ after_read result self.old }
    {
        let answer = self.end.read(buf);
        self.counts.count_read(answer);
        answer
    }

    /// Again is a write that would wait; any other error is a failure.
    fn write(&mut self, bytes: &[u8]) -> LinkWrite
        requires { 0 < length bytes.now }
        ensures part { IfWritten result (λ n. IsPartOf n (length bytes.now)) }
        ensures moved { WriteMoved result self.old self.new }
        ensures exact { self.new ≡ after_write result self.old }
    {
        let answer = self.end.write(bytes);
        self.counts.count_write(answer);
        answer
    }
}
