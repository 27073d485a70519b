//! Laws of damage: what holds of all surfaces, with no code.

ghost use Rattle.surface_damage.specs.Statements.{DueBytesAreFilled, FilledBlocksAreDue};
ghost use Rattle.surface_damage.specs.Statements.{FilledBlocksAscend, FindAfter};
ghost use Rattle.surface_damage.specs.Statements.{NewestSuffice, SoundLasts};

/// Every due byte lies in a filled block.
pub fn due_bytes_are_filled()
    ensures { DueBytesAreFilled }
{}

/// Unless there were more than 1,024 runs, every filled block holds a due byte.
pub fn filled_blocks_are_due()
    ensures { FilledBlocksAreDue }
{}

/// The filled blocks ascend within the told size, in at most 1,024 runs.
pub fn filled_blocks_ascend()
    ensures { FilledBlocksAscend }
{}

/// After every list of requests the newest seven commits of each surface are kept, and the filled
/// blocks are those that all its commits would give.
pub fn newest_suffice()
    ensures { NewestSuffice }
{}

/// What a look-up finds after a surface is made, destroyed or changed.
pub fn find_after()
    ensures { FindAfter }
{}

/// Ids rise, scales are at least 1 and few commits are kept, after every request.
pub fn sound_lasts()
    ensures { SoundLasts }
{}
