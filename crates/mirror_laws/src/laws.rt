//! What holds of the mirrors that the frames of one side's story make.

ghost use Rattle.mirror_laws.specs.MessageLaws.{EachIsGrouped, EachHasStoodWords};
ghost use Rattle.mirror_laws.specs.MirrorLaws.{MirrorAtMessage, MirrorsAreSized};
ghost use Rattle.mirror_laws.specs.StoodLaws.{WordsStood, UntouchedIsNoted};

/// At each message the filled blocks of its file's mirror have the words of its copies, and all
/// else is as before its group, in every mirror.
pub fn mirror_at_message()
    ensures { MirrorAtMessage }
{}

/// Between messages a mirror is as long as the told size of its file, rounded up to whole blocks.
pub fn mirrors_are_sized()
    ensures { MirrorsAreSized }
{}

/// Where the copies of a message stood, each word of its filled blocks is a word of one of them,
/// at its place, and stood in the peer's memory during that copy.
pub fn words_stood()
    ensures { WordsStood }
{}

/// A word that nobody wrote during its copy is the one of the note.
pub fn untouched_is_noted()
    ensures { UntouchedIsNoted }
{}

/// Each message among the made frames is that of one group, so the laws above speak of all.
pub fn each_message_is_grouped()
    ensures { EachIsGrouped }
{}

/// Where all copies of a story stood, each word of the filled blocks stood at each message.
pub fn each_has_stood_words()
    ensures { EachHasStoodWords }
{}
