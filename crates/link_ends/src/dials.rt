//! One side's way to a line, and to the next one once that is broken.

ghost use Rattle.std.specs.Prelude.{◌≡◌, ℕ, ◌<◌, ◌≤◌, Bool, true, false};
ghost use Rattle.link_ends.specs.Counts.{no_link_counts, after_back};
ghost use Rattle.link_ends.specs.Dialling.{IfLink, DialMoved};
ghost use Rattle.link_ends.specs.declared.dial_counts.DialCounts.{DialCounts};

use crate::links::Link;

/// What one dial gave.
#[derive(Drop)]
pub enum Dialled<K> {
    /// One end of a new line; the other side has the other end, under the same number.
    Link {
        /// The connection's number, above 0 and above those of this dial's earlier lines.
        connection: u32,
        /// This side's end.
        link: K,
    },
    /// The other side dials no more, and its last word was heard.
    Gone,
    /// There is no way to the other side.
    Failed,
    /// Memory ran out, or the numbers of connections did.
    Memory,
}

/// One side of a pair of dials.
pub trait Dial {
    /// Its end of a line.
    type Line: Link;

    // The lines out, the bytes and the broken lines of those that came back, the partings and the
    // faults.
    ghost dial_counts: { Self → DialCounts };

    // Whether this side dials no more.
    ghost has_left: { Self → Bool };

    // The number of the last connection, 0 before the first.
    ghost latest: { Self → ℕ };

    /// Gives the next line, and may wait for the other side to dial too. `heard` says whether the
    /// other side's last word was heard.
    fn dial(&mut self, heard: bool) -> Dialled<Self::Line>
        requires { has_left self.old ≡ false }
        ensures number { IfLink result (λ connection _. (latest self.old < connection)
            × (latest self.new ≡ connection)) }
        ensures line { IfLink result (λ _ line. Self.Line.counts line ≡ no_link_counts) }
        ensures moved { DialMoved result heard (dial_counts self.old) (dial_counts self.new) }
        ensures rising { latest self.old ≤ latest self.new }
        ensures stays { has_left self.new ≡ false };

    /// Takes a line of this dial back, and counts what it had counted.
    fn back(&mut self, line: Self::Line)
        requires { 0 < (dial_counts self.old).lines_out }
        ensures counts { dial_counts self.new ≡ after_back (Self.Line.counts line) (dial_counts self.old) }
        ensures latest { latest self.new ≡ latest self.old }
        ensures left { has_left self.new ≡ has_left self.old };

    /// Dials no more from now on.
    fn leave(&mut self)
        ensures left { has_left self.new ≡ true }
        ensures counts { dial_counts self.new ≡ dial_counts self.old }
        ensures latest { latest self.new ≡ latest self.old };
}
