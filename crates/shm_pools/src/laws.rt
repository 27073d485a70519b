//! Laws of files and of buffers.

ghost use Rattle.shm_pools.specs.Buffers.{FitsInAgrees};
ghost use Rattle.shm_pools.specs.Laws.{PoolsAreApart, PoolTellsSegment, PlaceIsWithin};
ghost use Rattle.shm_pools.specs.Laws.{EyesHaveSizes, FileHasWords, WriteSetsWord};
ghost use Rattle.shm_pools.specs.Laws.{NewIsZeros, GrowAddsZeros, BytesRise};

/// The tests of `fits` pass just where the buffer lies within its file.
pub fn fits_agrees()
    ensures { FitsInAgrees }
{}

/// The pools of two files have numbers apart where the files' numbers differ, and so have the pools
/// of two segments of a file.
pub fn pools_are_apart()
    ensures { PoolsAreApart }
{}

/// The number of a pool tells its segment.
pub fn pool_tells_segment()
    ensures { PoolTellsSegment }
{}

/// A word of the file lies in the segment that has it, as far in as it stands behind the segments
/// before.
pub fn place_is_within()
    ensures { PlaceIsWithin }
{}

/// The eyes of a file have the sizes of its segments, which together are the file's.
pub fn eyes_have_sizes()
    ensures eyes { EyesHaveSizes }
    ensures words { FileHasWords }
{}

/// A write changes that word of the file, and no other.
pub fn write_sets_word()
    ensures { WriteSetsWord }
{}

/// What a file has of its own or by growing is zeros, behind the words that it had.
pub fn new_words_are_zeros()
    ensures new { NewIsZeros }
    ensures grown { GrowAddsZeros }
{}

/// The bytes of words stand in their order, the lowest of each word first.
pub fn bytes_rise()
    ensures { BytesRise }
{}
