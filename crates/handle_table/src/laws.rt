//! What holds of the rids of every table.

ghost use Rattle.handle_table.specs.Laws.{OneHandlePerRid, ForeseenIsPassed, RidOutlastsPass};
ghost use Rattle.handle_table.specs.Laws.{RidOutlastsTook, SoundLasts, RidsAreDense, TookKeepsKind};

/// Two handles with one rid are one handle.
pub fn one_handle_per_rid()
    ensures { OneHandlePerRid }
{}

/// A handle that is passed has the seat that was foreseen for it.
pub fn foreseen_is_passed()
    ensures { ForeseenIsPassed }
{}

/// A handle keeps its rid, whatever is passed or kept later.
pub fn rid_outlasts()
    ensures pass { RidOutlastsPass }
    ensures took { RidOutlastsTook }
{}

/// Each handle stands once among those passed, and the kept rids rise.
pub fn sound_lasts()
    ensures { SoundLasts }
{}

/// The rids have no gap and stand in the order of first passing.
pub fn rids_are_dense()
    ensures { RidsAreDense }
{}

/// A rid that was taken has its kind from then on.
pub fn took_keeps_kind()
    ensures { TookKeepsKind }
{}
