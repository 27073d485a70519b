//! Which numbers of handles are a side's own.

ghost use Rattle.std.specs.Prelude.{◌≡◌};
ghost use Rattle.half_model.specs.Sides.{other_side, is_own};

use wp_outside::Side;

/// The other of the two sides.
pub fn other_side(side: Side) -> Side
    ensures { result ≡ other_side side }
{
    match side {
        Side::Near => Side::Far,
        Side::Far => Side::Near,
    }
}

/// Whether a number is one of a handle of this side's peer, or of a rid that this side gave: above
/// 0 at the near side, below 0 at the far side.
pub fn is_own(side: Side, number: i32) -> bool
    ensures { result ≡ is_own side number }
{
    match side {
        Side::Near => 0 < number,
        Side::Far => number < 0,
    }
}
