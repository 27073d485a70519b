//! Worked rows: functions that do nothing, and whose contract is what a run comes to.

ghost use Rattle.side_model.specs.WorkedRows.{LostLines, CutAndResent, WantsPeer, GoodThenBad};
ghost use Rattle.side_model.specs.WorkedRows.{AckFrees, ClosesBehind};

/// Two connections are lost with what was written on them; on the third one the message is sent,
/// and it is given once.
pub fn lost_lines()
    ensures { LostLines }
{}

/// A connection breaks in the eleventh frame, when the other side has read three: those from the
/// fourth on are sent again as they were, and each message is given once.
pub fn cut_and_resent()
    ensures { CutAndResent }
{}

/// A side takes from its peer while it holds 7,092 frames, no longer with one more, and again when
/// one is acknowledged.
pub fn wants_peer_counts()
    ensures { WantsPeer }
{}

/// A good frame before a bad one in one piece is heard, and the bad one stops the side at its
/// place.
pub fn good_then_bad()
    ensures { GoodThenBad }
{}

/// An ACK in the middle of a piece makes room: the rest of the piece is heard, and then the message
/// that waits is taken.
pub fn ack_frees()
    ensures { AckFrees }
{}

/// A side that is asked to close while a copy is out waits for it, and then refuses the bad size
/// that stands behind.
pub fn closes_behind()
    ensures { ClosesBehind }
{}
