//! The laws of runs: functions that do nothing, and whose contract is the law.

ghost use Rattle.pair_runs.specs.Agreeing.{MovesTie, RunsAgree};
ghost use Rattle.pair_runs.specs.Completing.{DrainedBringsAll};
ghost use Rattle.pair_runs.specs.Faults.{FaultsAreCaused};
ghost use Rattle.pair_runs.specs.Headline.{RunsTakeFirst, RunsReceive};
ghost use Rattle.pair_runs.specs.Measure.{RoundFalls};
ghost use Rattle.pair_runs.specs.MoreLaws.{WorksMore, ReadsMore, WritesMore, BeginsFirst};
ghost use Rattle.pair_runs.specs.MoreLaws.{GivesNoMore, PartMore};
ghost use Rattle.pair_runs.specs.Orders.{RunsAreAllowed};
ghost use Rattle.pair_runs.specs.Quiet.{QuietIsDone};
ghost use Rattle.pair_runs.specs.RunLaws.{RunsKeep, SettlesQuietly, DrainsQuietly, EmptyDrains};
ghost use Rattle.pair_runs.specs.RunLaws.{DrainsWithoutStop, StopsAtStop};
ghost use Rattle.pair_runs.specs.WorkLaws.{FedWorks, CameWorks, AsksWorks, UpIs, DownIs};
ghost use Rattle.pair_runs.specs.WorkLaws.{LendsIs, SendsIs, WantsIs, NothingLent, KeptByCalls};
ghost use Rattle.pair_runs.specs.WorkLaws.{FedFails, CameFails, AsksFails};
ghost use Rattle.pair_runs.specs.WorkLaws.{HandedFails, UpFails, UpLimits, LendsFails, KeptByFault};
ghost use Rattle.pair_runs.specs.WorkLaws.{GaveWorks, LentIs, HandedIs, HandedWorks, NoneOut};
ghost use Rattle.pair_runs.specs.WrongFaults.{BlamesNothing, BlamesOther, BlamesPipe, BlamesLink};
ghost use Rattle.pair_runs.specs.WrongFaults.{LimitsFew, LimitsNone, MissesHandle, RefusesUnheard};
ghost use Rattle.pair_runs.specs.WrongRuns.{SkipsBreak, ConnectsAgain, SkipsNumber, PushesLess};
ghost use Rattle.pair_runs.specs.WrongRuns.{TakesFree, LoadsWhole, LeavesWaiting, HoldsOutput};
ghost use Rattle.pair_runs.specs.WrongRuns.{OwesLoaded};

/// Each good call of a proxy with its records is what its move says: it takes an item of its peer,
/// hears what comes on the connection, is asked to close, has a connection that comes up or goes
/// down, lends bytes of its front and sends them, gives an item, lends a copy and has it handed
/// back.
pub fn calls_work()
    ensures fed { FedWorks }
    ensures came { CameWorks }
    ensures asks { AsksWorks }
    ensures up { UpIs }
    ensures down { DownIs }
    ensures lends { LendsIs }
    ensures sends { SendsIs }
    ensures gives { GaveWorks }
    ensures lent { LentIs }
    ensures handed { HandedIs }
    ensures last { HandedWorks }
    ensures none_out { NoneOut }
{}

/// Each call that meets a fault is what its move leaves in part.
pub fn calls_fail()
    ensures fed { FedFails }
    ensures came { CameFails }
    ensures asks { AsksFails }
    ensures handed { HandedFails }
    ensures up { UpFails }
    ensures limits { UpLimits }
    ensures lends { LendsFails }
    ensures kept { KeptByFault }
{}

/// Calls one after another are one move, also where bytes are read or written in pieces. A proxy
/// with empty records is a side at first, and where no frame can be heard a call brings nothing for
/// its peer but receipts.
pub fn calls_compose()
    ensures works { WorksMore }
    ensures reads { ReadsMore }
    ensures part { PartMore }
    ensures writes { WritesMore }
    ensures first { BeginsFirst }
    ensures gives { GivesNoMore }
{}

/// Between two calls a proxy takes from its peer just where its side in a run does, lends nothing
/// just where nothing is to be sent, and keeps its records as such a side does.
pub fn calls_show()
    ensures wants { WantsIs }
    ensures nothing { NothingLent }
    ensures kept { KeptByCalls }
{}

/// A round that changes something leaves less to move, and where one changes nothing, no byte of
/// the line having been replaced, nothing is left to move.
pub fn rounds_end()
    ensures falls { RoundFalls }
    ensures done { QuietIsDone }
{}

/// In each run the records of both sides are kept, and one that ends where nothing moved any more
/// ends with a round that changes nothing; a run ends so only without a line `stop`. There are
/// runs: the empty script has one.
pub fn runs_keep()
    ensures keep { RunsKeep }
    ensures settles { SettlesQuietly }
    ensures drains { DrainsQuietly }
    ensures without_stop { DrainsWithoutStop }
    ensures at_stop { StopsAtStop }
    ensures empty { EmptyDrains }
{}

/// While no byte of the line is replaced both sides agree, and a run that ends where nothing moved
/// any more has nothing left to move.
pub fn runs_agree()
    ensures moves { MovesTie }
    ensures runs { RunsAgree }
{}

/// In each run each side takes the first messages that its peer put; and while no byte of the line
/// is replaced the compositor receives the first ones that the application put, each once, and the
/// application the first that the registry view shows of those of the compositor.
pub fn runs_receive()
    ensures take { RunsTakeFirst }
    ensures receive { RunsReceive }
{}

/// A run that ends where nothing moved any more has brought all that the peers put, while no byte of
/// the line is replaced and no side was asked to close.
pub fn drained_brings_all()
    ensures { DrainedBringsAll }
{}

/// While no byte of the line is replaced the orders in which both sides passed messages are allowed
/// ones: a line that moves all that waits parts what was put before it from what was put behind it.
pub fn orders_are_allowed()
    ensures { RunsAreAllowed }
{}

/// Where a run ends with a fault its cause stands: at the message that the side's peer put behind
/// those that the side's records say were taken, in the order of passing that they tell, or at an
/// item that was put there; or the limit is passed by what would be next.
pub fn faults_are_caused()
    ensures { FaultsAreCaused }
{}

/// No run skips a break or the number of a connection, makes a connection while one is up, writes
/// less than it is asked to while there is something to be sent, takes an item for nothing once all
/// bytes asked for are taken, loads more words than it is asked to, leaves a whole message inside
/// that might be taken, keeps a message from a peer, or owes a message's frames once its copies are
/// loaded.
pub fn wrong_runs()
    ensures skips_break { SkipsBreak }
    ensures connects_again { ConnectsAgain }
    ensures skips_number { SkipsNumber }
    ensures pushes_less { PushesLess }
    ensures takes_free { TakesFree }
    ensures loads_whole { LoadsWhole }
    ensures leaves_waiting { LeavesWaiting }
    ensures holds_output { HoldsOutput }
    ensures owes_loaded { OwesLoaded }
{}

/// No run ends with a fault that blames a message where nothing was put, or another message than
/// the one behind those that were taken, or the first one for want of a handle where one was put
/// before it, or an item for a pipe where none was put; with a limit of
/// connections where fewer were made, or one that no side has. And no move refuses a frame where
/// none is heard, or a message where a connection is made.
pub fn wrong_faults()
    ensures blames_nothing { BlamesNothing }
    ensures blames_other { BlamesOther }
    ensures misses_handle { MissesHandle }
    ensures blames_pipe { BlamesPipe }
    ensures limits_few { LimitsFew }
    ensures limits_none { LimitsNone }
    ensures refuses_unheard { RefusesUnheard }
    ensures blames_link { BlamesLink }
{}
