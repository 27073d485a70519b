//! The laws over two sides: functions that do nothing, and whose contract is the law.

ghost use Rattle.pair_laws.specs.Auditing.{Audited};
ghost use Rattle.pair_laws.specs.Differences.{DiffersRefutes, OneDiffers};
ghost use Rattle.pair_laws.specs.Everything.{DrainedHasEverything, ClosedHasEverything};
ghost use Rattle.pair_laws.specs.Everything.{EmptyIsDrained};
ghost use Rattle.pair_laws.specs.Orders.{EachIsShown, WritesInTime, HearsBehind, HeardWasMade};
ghost use Rattle.pair_laws.specs.Orders.{OrdersAreKept};
ghost use Rattle.pair_laws.specs.Passing.{OrderIsTold, OrderHasBoth};
ghost use Rattle.pair_laws.specs.PipeRuns.{HasPipeRun, SilentBehindShut, PipesReach};
ghost use Rattle.pair_laws.specs.Received.{ReceivedIsTaken, SentIsShown, ReceivesPrefixes};
ghost use Rattle.pair_laws.specs.Received.{MirrorsAreSent, PeerHasMirrors};
ghost use Rattle.pair_laws.specs.Refusing.{Unspoiled};
ghost use Rattle.pair_laws.specs.Rids.{RidsInOrder};
ghost use Rattle.pair_laws.specs.Stood.{WordsStoodThere};
ghost use Rattle.pair_laws.specs.WrongPairs.{AcceptsTwice, LeavesOut, AcceptsUnmade};
ghost use Rattle.pair_laws.specs.WrongPairs.{KnowsTooMuch, RefusesElse, ReceivesAnother};
ghost use Rattle.pair_laws.specs.WrongPairs.{ReceivesOtherRid, HearsEarly, MissesOne};
ghost use Rattle.pair_laws.specs.WrongPairs.{FillsUnstood, GivesUnput, EndsPipeEarly};

use pipe_relay::laws::{from_peer_to_peer, shut_drops};

/// Where two sides agree, the frames that each accepted are the first ones that the other made,
/// and neither knows of more than the other accepted.
pub fn each_heard()
    ensures { Audited }
{}

/// A first difference refutes that two sides agree, and there is no second one.
pub fn first_differs_is_one()
    ensures refutes { DiffersRefutes }
    ensures one { OneDiffers }
{}

/// Where a near and a far side of one session agree, one that stopped for a frame stopped for its
/// messages: since they and their rids don't match, or since tracking refuses one of them.
pub fn unspoiled()
    ensures { Unspoiled }
{}

/// What a peer has received are the messages among the items that it took, and what a side sent are
/// the messages that are to be shown, with the rids of their handles in the order of first passing;
/// the order of passing is told by the side's records, and has the
/// messages that it took and those that it heard.
pub fn received_is_taken()
    ensures received { ReceivedIsTaken }
    ensures sent { SentIsShown }
    ensures rids { RidsInOrder }
    ensures order { OrderIsTold }
    ensures both { OrderHasBoth }
{}

/// Where a near and a far side agree, the compositor has received the first messages that the near
/// side took, and the application the first that the registry view shows of the far side's, each
/// with the rid of its handle; and at each of them the mirrors are those of the sender's own log, and
/// are what the peer has then.
pub fn received_prefixes()
    ensures prefixes { ReceivesPrefixes }
    ensures mirrors { MirrorsAreSent }
    ensures peers { PeerHasMirrors }
{}

/// At each message received each word of its filled blocks stood in the sender's memory between the
/// low and the high of its copy, and is the one of the note where it is untouched.
pub fn words_stood()
    ensures { WordsStoodThere }
{}

/// A pair that is drained has received everything, and so has one in which each side accepted the
/// other's CLOSE. A proxy with nothing left to send, to copy or to give is that of a drained side.
pub fn none_missing()
    ensures drained { DrainedHasEverything }
    ensures closed { ClosedHasEverything }
    ensures empty { EmptyIsDrained }
{}

/// The two facts on the order of passing at each side: a message's frame is written only behind a
/// count that takes in all that was heard before it was taken, and a message is heard only behind
/// all messages taken that the other side was known to have accepted.
pub fn orders_are_kept()
    ensures shown { EachIsShown }
    ensures writes { WritesInTime }
    ensures hears { HearsBehind }
{}

/// Where both agree, what a sender had heard when it took a message, the hearer had made when it
/// heard that message; and what the one had passed of the hearer's messages, the other had shown, by
/// their orders alone.
pub fn heard_was_made()
    ensures made { HeardWasMade }
    ensures orders { OrdersAreKept }
{}

/// What one peer was given of a pipe are the first pieces that the other one put, its end behind
/// all of them, and nothing once it had closed its own end.
pub fn pipes_reach()
    ensures has { HasPipeRun }
    ensures reach { PipesReach }
    ensures silent { SilentBehindShut }
{
    from_peer_to_peer();
    shut_drops();
}

/// No two sides that agree have records in which a frame was accepted twice, left out, accepted
/// unmade or known to be accepted too early, or refused for another cause than its messages; in
/// which a message was received in place of another, with another rid, before its time, or is
/// missing though all is drained; in which a word filled never stood; or in which a piece of a pipe
/// was given that was not put, or its end before all pieces.
pub fn wrong_pairs()
    ensures accepts_twice { AcceptsTwice }
    ensures leaves_out { LeavesOut }
    ensures accepts_unmade { AcceptsUnmade }
    ensures knows_too_much { KnowsTooMuch }
    ensures refuses_else { RefusesElse }
    ensures receives_another { ReceivesAnother }
    ensures receives_other_rid { ReceivesOtherRid }
    ensures hears_early { HearsEarly }
    ensures misses_one { MissesOne }
    ensures fills_unstood { FillsUnstood }
    ensures gives_unput { GivesUnput }
    ensures ends_pipe_early { EndsPipeEarly }
{
    pipes_reach();
}
