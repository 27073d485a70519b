//! The laws of one side: functions that do nothing, and whose contract is the law.

ghost use Rattle.side_model.specs.FollowLaws.{FollowsAtFirst, FollowsOutside, FollowsInside};
ghost use Rattle.side_model.specs.FollowLaws.{FollowsFits, LawfulStops, WeightGrows, NotesGrow};
ghost use Rattle.side_model.specs.FollowLaws.{TakesInOrder};
ghost use Rattle.side_model.specs.Judging.{HearsJustThose, JudgedByRecord, AcceptsJustThose};
ghost use Rattle.side_model.specs.RowLaws.{SoundAtFirst, SoundOutside, SoundInside, OneRow};
ghost use Rattle.side_model.specs.RowLaws.{OneCall, RowInOrder, WentThenChooses, StillRests};
ghost use Rattle.side_model.specs.RowLaws.{UpRests, RestIsCalm};
ghost use Rattle.side_model.specs.Running.{SettlesByPart};
ghost use Rattle.side_model.specs.TrailLaws.{KeepsAtFirst, CallsKeep, StepsKeep, SendsKeep};
ghost use Rattle.side_model.specs.TrailLaws.{LendsKeep};
ghost use Rattle.side_model.specs.WrongCalls.{StopsEarly, MissesFault, FailsEarly, FailsElse};
ghost use Rattle.side_model.specs.WrongCalls.{ForgetsRing, FailedChanges, FailedGoesOn};
ghost use Rattle.side_model.specs.WrongCalls.{ActsBehindChoice, HearsRefused, TakesOwing};
ghost use Rattle.side_model.specs.WrongCalls.{EndsOwing, EndsBefore, ChoosesAgain, SendsBeforeAck};
ghost use Rattle.side_model.specs.WrongCalls.{WantsOwing, RecordsTooMuch, LimitsEarly};
ghost use Rattle.side_model.specs.WrongCalls.{CountsNoWeight};

/// The numbers of a proxy hold at first, and each event keeps them: one that may come from outside,
/// and one that is due.
pub fn numbers_are_kept()
    ensures first { SoundAtFirst }
    ensures outside { SoundOutside }
    ensures inside { SoundInside }
{}

/// A row of events that leads to rest or to a fault is one row; so, want of memory aside, a call
/// does one thing.
pub fn calls_are_one()
    ensures row { OneRow }
    ensures call { OneCall }
{}

/// In a row all frames are heard first, and a front is chosen once at most, and last.
pub fn row_is_in_order()
    ensures { RowInOrder }
{}

/// At rest a front that is sent on leads to a choice at most; a connection that comes up or goes
/// down, an item or a note that is given and a copy that is lent lead to nothing.
pub fn rest_is_kept()
    ensures went { WentThenChooses }
    ensures still { StillRests }
    ensures up { UpRests }
{}

/// Nothing is due just where nothing waits that need not wait, CLOSE is made if it can be, and
/// nothing is to be sent.
pub fn rest_is_calm()
    ensures { RestIsCalm }
{}

/// The records follow a proxy from the beginning through each event, and the group that is due fits
/// its ring.
pub fn records_follow()
    ensures first { FollowsAtFirst }
    ensures outside { FollowsOutside }
    ensures inside { FollowsInside }
    ensures fits { FollowsFits }
{}

/// Wherever a proxy stops, at rest, at a fault or for want of memory, its records are lawful.
pub fn stops_are_lawful()
    ensures { LawfulStops }
{}

/// Each event adds to the weight of the records what it costs, and what is noted are the notes of
/// its mark. What a side took and what waits of its peer are the bytes that the peer put, in order.
pub fn records_grow()
    ensures weight { WeightGrows }
    ensures notes { NotesGrow }
    ensures takes { TakesInOrder }
{}

/// A proxy and its records, at first and through each call: while it has not failed the records
/// follow it, and where it fails they are lawful, its ring has their frames, and their weight stays
/// below its limit.
pub fn trail_keeps()
    ensures first { KeepsAtFirst }
    ensures calls { CallsKeep }
    ensures steps { StepsKeep }
    ensures sends { SendsKeep }
    ensures lends { LendsKeep }
{}

/// What a plain run does after an event is a part of the row that is due.
pub fn run_is_part()
    ensures { SettlesByPart }
{}

/// A frame is heard just where it stands whole at the front of the bytes read and neither the
/// connection nor what it says gives a cause to refuse it; what it is judged by is what the records
/// tell. So the frames that a side accepted are those for which no cause is found, one after
/// another, on each of its connections.
pub fn frames_are_judged()
    ensures hears { HearsJustThose }
    ensures judged { JudgedByRecord }
    ensures accepts { AcceptsJustThose }
{}

/// No call did what it may not: it was not done while an event or a fault was due, nor did it fail
/// early or for another fault, forget the ring, or change a proxy that had failed. No event stands
/// behind the choice of a front, no frame is heard that is refused for what it says, no message is
/// taken while one is owed, CLOSE is not made before what is owed and what waits, no front is
/// chosen over another or before an ACK, nothing is taken from the peer while a message is owed,
/// nothing that is too heavy is recorded, and what fits is.
pub fn wrong_calls()
    ensures stops_early { StopsEarly }
    ensures misses_fault { MissesFault }
    ensures fails_early { FailsEarly }
    ensures fails_else { FailsElse }
    ensures forgets_ring { ForgetsRing }
    ensures failed_changes { FailedChanges }
    ensures failed_goes_on { FailedGoesOn }
    ensures acts_behind_choice { ActsBehindChoice }
    ensures hears_refused { HearsRefused }
    ensures takes_owing { TakesOwing }
    ensures ends_owing { EndsOwing }
    ensures ends_before { EndsBefore }
    ensures chooses_again { ChoosesAgain }
    ensures sends_before_ack { SendsBeforeAck }
    ensures wants_owing { WantsOwing }
    ensures records_too_much { RecordsTooMuch }
    ensures limits_early { LimitsEarly }
    ensures counts_no_weight { CountsNoWeight }
{}
