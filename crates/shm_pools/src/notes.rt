//! Eyes on files, and the notes that are made of them.

ghost use Rattle.std.specs.Prelude.{◌≡◌, IfSome};
ghost use Rattle.shm_pools.specs.Files.{eye_sizes, place_in};
ghost use Rattle.shm_pools.specs.Places.{IsPlaceOf};

use crate::places::{WordPlace, place_among};
use plain_lists::PlainList;
use pool_words::Eye;

/// The eyes of a file, one for each segment in order.
pub type EyeList = PlainList<Eye>;

/// Eyes of several files.
pub type FileEyesList = PlainList<FileEyes>;

/// The eyes of one segment after another of a file.
#[derive(Drop)]
pub struct FileEyes {
    /// The owner's number for the file.
    pub number: i32,
    /// One eye for each segment, in order.
    pub eyes: EyeList,
}

impl FileEyes {
    /// Where a word of the file lies; None exactly where the file has no such word.
    pub fn place_of(&self, word: u32) -> Option<WordPlace>
        ensures place { result ≡ place_in (eye_sizes self.now.eyes) word }
        ensures there { IfSome result (IsPlaceOf (eye_sizes self.now.eyes) word) }
    {
        place_among(self.eyes.as_slice(), word)
    }
}

/// What a client feeds before a commit: the eyes of all its files at that moment.
#[derive(Drop)]
pub struct Note {
    /// The files, in any order.
    pub files: FileEyesList,
}
