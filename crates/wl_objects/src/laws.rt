//! Laws of tracking and of what is shown: each function does nothing, and its clauses are the laws.

ghost use Rattle.wl_objects.specs.ObjectLaws.{TrackGoesOn, FrontIsTracked, StateIsTracked};
ghost use Rattle.wl_objects.specs.ObjectLaws.{StateGoesOn, VisibleGoesOn, EventIsViewed};
ghost use Rattle.wl_objects.specs.ObjectLaws.{RequestIsNotShown, ShownIsWhole, PassedByTheTable};

/// Messages that pass can be passed in parts.
pub fn tracked_in_parts()
    ensures goes_on { TrackGoesOn }
    ensures front { FrontIsTracked }
{}

/// What is shown of messages that pass is shown in parts, and the state after them is that of their
/// parts.
pub fn shown_in_parts()
    ensures tracked { StateIsTracked }
    ensures state { StateGoesOn }
    ensures visible { VisibleGoesOn }
{}

/// What is shown of messages that pass is shown one by one: of an event what its view shows, of a
/// request nothing; and whole messages are shown as whole ones.
pub fn shown_one_by_one()
    ensures event { EventIsViewed }
    ensures request { RequestIsNotShown }
    ensures whole { ShownIsWhole }
{}

/// A message that passes is one of the table's: its interface has a message of its opcode, and its
/// arguments are good.
pub fn passed_by_the_table()
    ensures { PassedByTheTable }
{}
