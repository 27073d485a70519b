//! Laws of the program's call: each function does nothing, and its clauses are the laws.
ghost use Rattle.waypipe_run.specs.Headline.{ReplaysHold, TrialsHold};
ghost use Rattle.waypipe_run.specs.TopLaws.{OtherWords, OneIsDue, StatusOfInput, StatusOfStream};
ghost use Rattle.waypipe_run.specs.TopLaws.{StatusOfTrial};

/// Which status comes: the one that words and input call for, but for outside faults and want of
/// memory.
pub fn status_is_decided()
    ensures words { OtherWords }
    ensures one { OneIsDue }
    ensures input { StatusOfInput }
    ensures stream { StatusOfStream }
    ensures trial { StatusOfTrial }
{}

/// What holds of each replay that is reported, a trial's too: what both peers have received, in
/// which orders messages passed, that the records of both sides are lawful, and that all was
/// received where nothing moved any more.
pub fn replays_hold()
    ensures replays { ReplaysHold }
    ensures trials { TrialsHold }
{}
