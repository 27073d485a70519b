//! Lines in memory.

ghost use Rattle.std.specs.Prelude.{◌≡◌, ◌⊎◌, ◌<◌, ◌≤◌, ⊤, Some, length, IfOk};
ghost use Rattle.wp_outside.specs.Pieces.{IsPartOf};
ghost use Rattle.link_ends.specs.Counts.{no_link_counts};
ghost use Rattle.link_ends.specs.Allowances.{passing, less_by};
ghost use Rattle.link_ends.specs.Reads.{IfRead, MatchRead, count_read, after_read, ReadMoved};
ghost use Rattle.link_ends.specs.Writes.{IfWritten, MatchWrite, after_write, WriteMoved};

use crate::allowances::Allowance;
use crate::lanes::{Inlet, Outlet, open_lane};
use crate::link_counts::LinkCounts;
use crate::links::{Link, LinkRead, LinkWrite};
use std::alloc::{AllocError, Global};
use std::marker::Model;

/// One side's end of a line in memory. It never fails. Where the other end is dropped, what that wrote
/// is read first, and then the end.
#[derive(Drop)]
pub struct MemoryLine {
    inlet: Inlet,
    outlet: Outlet,
    counts: LinkCounts,
}

impl Model for MemoryLine {
    ghost use Rattle.std.specs.Prelude.{length};
    ghost use Rattle.rtrb.specs.Ring.{known_items, known_free};
    ghost use Rattle.link_ends.specs.MemoryEnds.{MemoryEnd};

    ghost Value = { MemoryEnd };

    ghost view = { λ l. record {
      counts = l.counts;
      items = length (known_items l.inlet.ring);
      places = known_free l.outlet.ring;
      until_cut = l.inlet.allowance;
    } };
}

impl MemoryLine {
    // An end that nothing was asked of.
    fn new(inlet: Inlet, outlet: Outlet) -> MemoryLine
        ensures counts { result.counts ≡ no_link_counts }
        ensures until_cut { result.until_cut ≡ inlet.allowance }
    {
        MemoryLine {
            inlet,
            outlet,
            counts: LinkCounts::new(),
        }
    }

    /// What this end has counted.
    pub fn counts(&self) -> LinkCounts
        ensures { result ≡ self.now.counts }
    {
        self.counts
    }
}

impl Link for MemoryLine {
    ghost counts = { λ l. l.counts };

    /// Answers Again only where this end knew of no byte, and Ended only where it knew of none or the
    /// cut was reached.
    fn read(&mut self, buf: &mut [u8]) -> LinkRead
        requires { 0 < length buf.old }
        ensures part { IfRead result (λ n. IsPartOf n (length buf.old)) }
        ensures moved { ReadMoved result self.old.counts self.new.counts }
        ensures exact { self.new.counts ≡ after_read result self.old.counts }
        ensures cause { MatchRead result (λ _. ⊤)
            (self.old.items ≡ 0)
            ((self.old.items ≡ 0) ⊎ (self.old.until_cut ≡ Some 0))
            ⊥ }
        ensures within { IfRead result (λ n. n ≤ passing self.old.until_cut (length buf.old)) }
        ensures spent { self.new.until_cut ≡ less_by (count_read result) self.old.until_cut }
    {
        let answer = self.inlet.read(buf);
        self.counts.count_read(answer);
        answer
    }

    /// Answers Again only where this end knew of no free place.
    fn write(&mut self, bytes: &[u8]) -> LinkWrite
        requires { 0 < length bytes.now }
        ensures part { IfWritten result (λ n. IsPartOf n (length bytes.now)) }
        ensures moved { WriteMoved result self.old.counts self.new.counts }
        ensures exact { self.new.counts ≡ after_write result self.old.counts }
        ensures cause { MatchWrite result (λ _. ⊤) (self.old.places ≡ 0) ⊥ }
        ensures until_cut { self.new.until_cut ≡ self.old.until_cut }
    {
        let answer = self.outlet.write(bytes);
        self.counts.count_write(answer);
        answer
    }
}

/// Both ends of a new line, the near one first, of whose directions this may pass.
pub(crate) fn open_line(
    alloc: Global,
    up: Allowance,
    down: Allowance,
) -> Result<(MemoryLine, MemoryLine), AllocError>
    ensures near { IfOk result (λ ends. (ends.0.counts ≡ no_link_counts) × (ends.0.until_cut ≡ down)) }
    ensures far { IfOk result (λ ends. (ends.1.counts ≡ no_link_counts) × (ends.1.until_cut ≡ up)) }
{
    let (near_out, far_in) = open_lane(alloc, up)?;
    let (far_out, near_in) = open_lane(alloc, down)?;
    Ok((
        MemoryLine::new(near_in, near_out),
        MemoryLine::new(far_in, far_out),
    ))
}
