//! A worked row, and mirrors that are refused.

ghost use Rattle.mirror_laws.specs.Rows.{CommitFills, WrongMirrors, ChangingWord};
ghost use Rattle.mirror_laws.specs.StoryRow.{PictureDrawn};

/// The mirror at a commit that fills two runs.
pub fn commit_fills()
    ensures { CommitFills }
{}

/// Mirrors that no commit makes.
pub fn wrong_mirrors()
    ensures { WrongMirrors }
{}

/// A word of a mirror that stood during its copy, and words that stood only before or behind it.
pub fn changing_word()
    ensures { ChangingWord }
{}

/// The mirror of a picture, from the bytes of the messages that lead up to it.
pub fn picture_drawn()
    ensures { PictureDrawn }
{}
