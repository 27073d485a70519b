//! What holds of every table of sizes and of mirrors.

ghost use Rattle.mirror_pools.specs.Laws.{MirrorsAreMeaning, FillsReplace, AllGrowthKeeps};
ghost use Rattle.mirror_pools.specs.Laws.{SizesGoAlong, SoundLasts, WholeLasts};

/// The bytes of each mirror are what the frames that were accepted mean for it.
pub fn mirrors_are_meaning()
    ensures { MirrorsAreMeaning }
{}

/// A fill puts its piece at its place, and growth puts zeros behind the bytes; all other bytes
/// stay.
pub fn other_bytes_stay()
    ensures fill { FillsReplace }
    ensures growth { AllGrowthKeeps }
{}

/// The sizes of mirrors take the same steps as a table of sizes alone.
pub fn sizes_go_along()
    ensures { SizesGoAlong }
{}

/// The rids rise and the limits on sizes hold behind every step.
pub fn sound_lasts()
    ensures { SoundLasts }
{}

/// Each mirror has as many bytes as its size, rounded up to whole blocks of 64.
pub fn whole_lasts()
    ensures { WholeLasts }
{}
