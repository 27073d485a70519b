//! Laws of what words held.

ghost use Rattle.pool_words.specs.Laws.{LastWriteStands, UnnamedIsZero, LaterWritesLeave};
ghost use Rattle.pool_words.specs.Laws.{UntouchedStays, UntouchedIsCommitted, StoodStays};
ghost use Rattle.pool_words.specs.Sharing.{PenIsShared, EyeIsShared, ReceiptIsShared};

/// A word that a write names holds its value, until another write names the word.
pub fn last_write_stands()
    ensures { LastWriteStands }
{}

/// A word that no write names is 0.
pub fn unnamed_is_zero()
    ensures { UnnamedIsZero }
{}

/// What a word held after some writes stays so, whatever is written later.
pub fn later_writes_leave()
    ensures { LaterWritesLeave }
{}

/// A word holds at both ends of a stretch with no write to it the same.
pub fn untouched_stays()
    ensures { UntouchedStays }
{}

/// A value that stood in a word with no write between low and high is what the word held at low.
pub fn untouched_is_committed()
    ensures { UntouchedIsCommitted }
{}

/// A load that has stood has stood in each longer history.
pub fn stood_stays()
    ensures { StoodStays }
{}

/// Threads may share pens, eyes and receipts by reference.
pub fn shared_by_reference()
    ensures pen { PenIsShared }
    ensures eye { EyeIsShared }
    ensures receipt { ReceiptIsShared }
{}
