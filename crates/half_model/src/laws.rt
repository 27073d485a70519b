//! What holds of every story of a side, and of two stories where one hears what the other made.

ghost use Rattle.half_model.specs.ItemLaws.{ItemsAreMeant};
ghost use Rattle.half_model.specs.PairLaws.{GivenIsSent, AllIsGiven, ContentIsFine};
ghost use Rattle.half_model.specs.PeerLaws.{PeerHasMeaning};
ghost use Rattle.half_model.specs.StoryLaws.{MadeIsGood, GroupsFit, FillsAreCopies};
ghost use Rattle.half_model.specs.StoryLaws.{OpensInOrder, OrderIsTracked, ShownInOrder};
ghost use Rattle.half_model.specs.StoryLaws.{SizesAreBounded, UnshownIsEmpty};
ghost use Rattle.half_model.specs.TurnLaws.{TurnIsLawful, JobsStay, GroupIsLawful};
ghost use Rattle.half_model.specs.TurnLaws.{PipeTurnIsLawful};
ghost use Rattle.half_model.specs.WrongMarks.{OneGroup, WrongHearing, WrongMaking, WrongTaking};

/// The message that a turn takes may be taken, and leaves what its mark leaves.
pub fn turn_is_lawful()
    ensures { TurnIsLawful }
{}

/// The jobs of a message stay its jobs while they are lent and handed back, and make its group.
pub fn jobs_make_the_group()
    ensures stay { JobsStay }
    ensures group { GroupIsLawful }
{}

/// A pipe item makes a frame that may be made, or drops an end that may be dropped.
pub fn pipe_turn_is_lawful()
    ensures { PipeTurnIsLawful }
{}

/// Marks that no story has, and that copies leave no choice of their group.
pub fn wrong_marks()
    ensures taking { WrongTaking }
    ensures hearing { WrongHearing }
    ensures making { WrongMaking }
    ensures group { OneGroup }
{}

/// Each frame that is made is in the grammar and counted, and CLOSE is the last one.
pub fn made_is_good()
    ensures { MadeIsGood }
{}

/// A group has at most 1,091 frames.
pub fn groups_fit()
    ensures { GroupsFit }
{}

/// The bytes of all FILL frames are those of the words of all copies, in order.
pub fn fills_are_copies()
    ensures { FillsAreCopies }
{}

/// The rids of files and pipes are 1, 2, 3 and so on at the near side, -1, -2, -3 at the far one.
pub fn opens_in_order()
    ensures { OpensInOrder }
{}

/// The order in which messages pass is tracked.
pub fn order_is_tracked()
    ensures { OrderIsTracked }
{}

/// Messages are shown in their order, each once.
pub fn shown_in_order()
    ensures { ShownInOrder }
{}

/// An event that is not shown makes no frames.
pub fn unshown_is_empty()
    ensures { UnshownIsEmpty }
{}

/// The told sizes keep to their limits.
pub fn sizes_are_bounded()
    ensures { SizesAreBounded }
{}

/// What a peer was given is what the frames mean that its side heard.
pub fn items_are_meant()
    ensures { ItemsAreMeant }
{}

/// A peer that took all that it was given has what these frames mean.
pub fn peer_has_meaning()
    ensures { PeerHasMeaning }
{}

/// What the frames that one side accepted mean is what the other side sent, message by message,
/// each with the rid of its handle.
pub fn given_is_sent()
    ensures first { GivenIsSent }
    ensures all { AllIsGiven }
{}

/// A frame that one side made is refused by the other for what it says only where tracking refuses
/// a message of it, or where its messages and its rids do not agree in number and kind.
pub fn content_is_fine()
    ensures { ContentIsFine }
{}
