//! The laws of a side's steps and over two sides: functions that do nothing, and whose contract is
//! the law.

ghost use Rattle.pair_model.specs.Laws.{EachOnce, NoneLost, Unspoiled, QuietIsDone, DrainedHasAll};
ghost use Rattle.pair_model.specs.Laws.{SameByCases, FaultFalls};
ghost use Rattle.pair_model.specs.RingLaws.{NewRing, RingMade, RingPushed, RingPushedAll};
ghost use Rattle.pair_model.specs.RingLaws.{RingAcked, RingAt};
ghost use Rattle.pair_model.specs.StepLaws.{BeginsWire, UpStands, SentStands, FedStands};
ghost use Rattle.pair_model.specs.StepLaws.{ReadStands, ChosenStands, MadeStands, MadeWire};
ghost use Rattle.pair_model.specs.StepLaws.{StandsWire, StoppedWire, StoppedRefused};
ghost use Rattle.pair_model.specs.StepLaws.{HeardUp, HeardSent, HeardFed, HeardRead, HeardChosen};
ghost use Rattle.pair_model.specs.StepLaws.{HeardMade, HeardAll, HeardStopped, HeardOnce};
ghost use Rattle.pair_model.specs.StepLaws.{HereCounts, WholeIsSent, HerePlace, ChosenIdle};
ghost use Rattle.pair_model.specs.StepLaws.{IdleNoFront, NextIsDue, NoFaultComes};
ghost use Rattle.pair_model.specs.WrongSides.{NoGreetingFirst, OtherToken, OtherConnection};
ghost use Rattle.pair_model.specs.WrongSides.{CountAboveMade, GreetsAgain, AckAboveSent};
ghost use Rattle.pair_model.specs.WrongSides.{BehindClose, FaultPassedBy};
ghost use Rattle.pair_model.specs.WrongSides.{TwoLines, ReadBehindStop, WroteBehindStop};
ghost use Rattle.pair_model.specs.WrongSides.{AckKeepsNothing, SentEarly, HeardEarly};

/// Where both sides agree on the bytes, what each has accepted are the first frames that the other
/// made, in order, each once.
pub fn each_once()
    ensures { EachOnce }
{}

/// Where both sides agree, each knows of no more frames than the other accepted, and still keeps
/// every frame that the other has not accepted.
pub fn none_lost()
    ensures { NoneLost }
{}

/// Where both sides agree and have one token, a side that refuses something refuses the content of
/// a whole frame, which is the next one that the other made: no fault of the grammar or of the
/// connection comes.
pub fn unspoiled()
    ensures { Unspoiled }
{}

/// Where all that was written was read and neither side has anything more to send, neither side
/// keeps a frame.
pub fn quiet_is_done()
    ensures { QuietIsDone }
{}

/// Where both sides agree and know that all their frames were accepted, each has accepted all that
/// the other made.
pub fn drained_has_all()
    ensures { DrainedHasAll }
{}

/// What may have been written, said with some bytes still to be written, and said by cases, is the
/// same.
pub fn same_by_cases()
    ensures { SameByCases }
{}

/// A frame that is let pass still is where more frames are made and wholly sent.
pub fn fault_falls()
    ensures { FaultFalls }
{}

/// A side that has made, written and read nothing keeps what it may; a connection that comes up,
/// with a number above all earlier ones, is in the state between two steps.
pub fn up_stands()
    ensures begins { BeginsWire }
    ensures up { UpStands }
{}

/// Each step on a connection keeps that state: bytes are written, bytes come in, a frame is read,
/// the next front is chosen, frames are made.
pub fn steps_stand()
    ensures sent { SentStands }
    ensures fed { FedStands }
    ensures read { ReadStands }
    ensures chosen { ChosenStands }
    ensures made { MadeStands }
{}

/// The state between two steps gives what a side may have written and read: between calls, when the
/// connection is down, and where a frame is refused; and what is refused can be told from it.
/// Frames that are made change nothing of it.
pub fn standing_is_wire()
    ensures stands { StandsWire }
    ensures stopped { StoppedWire }
    ensures refused { StoppedRefused }
    ensures made { MadeWire }
{}

/// The frames accepted so far, step by step: a frame that is read adds itself where it is counted,
/// and no other step adds one.
pub fn heard_by_steps()
    ensures up { HeardUp }
    ensures sent { HeardSent }
    ensures fed { HeardFed }
    ensures read { HeardRead }
    ensures chosen { HeardChosen }
    ensures made { HeardMade }
    ensures all { HeardAll }
    ensures stopped { HeardStopped }
    ensures once { HeardOnce }
{}

/// What is kept of the connection that is up: its counts, the frames wholly sent, the place of the
/// bytes unread.
pub fn connection_is_kept()
    ensures counts { HereCounts }
    ensures whole { WholeIsSent }
    ensures place { HerePlace }
{}

/// Nothing is chosen just where all made is sent and all accepted is told; then there is nothing to
/// send.
pub fn idle_has_no_front()
    ensures chosen { ChosenIdle }
    ensures front { IdleNoFront }
{}

/// Where both sides agree and have one token, the frame that a side comes to is not refused, and
/// its bytes show no fault.
pub fn next_is_due()
    ensures link { NextIsDue }
    ensures grammar { NoFaultComes }
{}

/// No side that keeps what it may did what it may not: accepted a first frame that is no RESTART,
/// one with another token, connection or too great a count, a second RESTART, an ACK of frames that
/// were not sent, or a counted frame behind CLOSE; passed a fault of the grammar by; had two lines
/// of one number; read or wrote behind the place where it stopped; sent or accepted a frame before
/// its time.
pub fn wrong_sides()
    ensures no_greeting { NoGreetingFirst }
    ensures other_token { OtherToken }
    ensures other_connection { OtherConnection }
    ensures count_above_made { CountAboveMade }
    ensures greets_again { GreetsAgain }
    ensures ack_above_sent { AckAboveSent }
    ensures behind_close { BehindClose }
    ensures fault_passed_by { FaultPassedBy }
    ensures two_lines { TwoLines }
    ensures read_behind_stop { ReadBehindStop }
    ensures wrote_behind_stop { WroteBehindStop }
    ensures ack_keeps_nothing { AckKeepsNothing }
    ensures sent_early { SentEarly }
    ensures heard_early { HeardEarly }
{}

/// A ring stays the spellings of the frames made from the acknowledged count on: at first, when
/// frames are made, and when some of them are acknowledged. So it tells how many were made, and
/// holds each frame from there on at its place.
pub fn ring_is_kept()
    ensures new { NewRing }
    ensures made { RingMade }
    ensures pushed { RingPushed }
    ensures all { RingPushedAll }
    ensures acked { RingAcked }
    ensures at { RingAt }
{}
