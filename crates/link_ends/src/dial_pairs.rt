//! Pairs of dials, one for each side.

ghost use Rattle.std.specs.Prelude.{◌≡◌, ℕ, ◌≤◌, Err, IfOk};
ghost use Rattle.wp_outside.specs.Counts.{Rose};
ghost use Rattle.link_ends.specs.Counts.{after_close};
ghost use Rattle.link_ends.specs.Dialling.{IsFresh};
ghost use Rattle.link_ends.specs.declared.dial_pairs.OpenFault.TheVariants.{Failed};
ghost use Rattle.link_ends.specs.declared.pair_counts.SideCounts.{SideCounts};

use crate::dials::Dial;
use wp_outside::Direction;

/// What carries the lines.
#[derive(Clone, Copy, Debug, PartialEq, Eq)]
pub enum LinkKind {
    /// Memory of this process.
    Memory,
    /// TCP on the loopback interface.
    Tcp,
}

/// Where one connection is cut: the reader of this direction is given its first `after` bytes and
/// then the end, and the writer's bytes past these are lost. The cuts of a pair are listed by
/// connection, the first for connection 1.
#[derive(Clone, Copy, Debug, PartialEq, Eq)]
pub struct Cut {
    /// The direction that is cut.
    pub dir: Direction,
    /// How many of its bytes arrive.
    pub after: u64,
}

/// Why no pair of dials was opened.
#[derive(Clone, Copy, Debug, PartialEq, Eq)]
pub enum OpenFault {
    /// There is no such link.
    Failed,
    /// Memory ran out.
    Memory,
}

/// What opens pairs of dials and takes them back.
pub trait DialPair {
    /// The dial beside the application.
    type Near: Dial;

    /// The dial beside the compositor.
    type Far: Dial;

    // What the near dials that came back had counted.
    ghost near_counts: { Self → SideCounts };

    // What the far dials that came back had counted.
    ghost far_counts: { Self → SideCounts };

    // How often opening failed, and more where a side's dial failed.
    ghost faults: { Self → ℕ };

    /// Opens a pair whose connections are cut as listed, the first cut for connection 1.
    fn open(&mut self, kind: LinkKind, cuts: &[Cut]) -> Result<(Self::Near, Self::Far), OpenFault>
        ensures near { IfOk result (λ pair.
            IsFresh (Self.Near.dial_counts pair.0) (Self.Near.has_left pair.0)) }
        ensures far { IfOk result (λ pair.
            IsFresh (Self.Far.dial_counts pair.1) (Self.Far.has_left pair.1)) }
        ensures cause { result ≡ Err Failed → Rose (faults self.old) (faults self.new) }
        ensures kept { faults self.old ≤ faults self.new }
        ensures near_stays { near_counts self.new ≡ near_counts self.old }
        ensures far_stays { far_counts self.new ≡ far_counts self.old };

    /// Takes both dials back, and counts what they had counted.
    fn close(&mut self, near: Self::Near, far: Self::Far)
        ensures near { near_counts self.new ≡ after_close (Self.Near.dial_counts near) (near_counts self.old) }
        ensures far { far_counts self.new ≡ after_close (Self.Far.dial_counts far) (far_counts self.old) }
        ensures near_rose { Rose (near_counts self.old).faults (near_counts self.new).faults
            → Rose (faults self.old) (faults self.new) }
        ensures far_rose { Rose (far_counts self.old).faults (far_counts self.new).faults
            → Rose (faults self.old) (faults self.new) }
        ensures kept { faults self.old ≤ faults self.new };
}
