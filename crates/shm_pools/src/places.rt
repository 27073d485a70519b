//! Where the words of a file lie in its segments.

ghost use Rattle.std.specs.Prelude.{◌≡◌, ◌<◌, length, sum};
ghost use Rattle.shm_pools.specs.Files.{pen_sizes, eye_sizes, place_in, pen_at};
ghost use Rattle.shm_pools.specs.Files.{segment_of, offset_of};

use pool_words::{Eye, Pen};

/// Where a word of a file lies.
#[derive(Clone, Copy, Debug, PartialEq, Eq)]
pub struct WordPlace {
    /// The segment that has it.
    pub segment: u32,
    /// Which word of the segment it is.
    pub word: u32,
}

// The place of a word of the file that these eyes see.
pub(crate) fn place_among(eyes: &[Eye], word: u32) -> Option<WordPlace>
    ensures { result ≡ place_in (eye_sizes eyes.now) word }
{
    let mut rest = word;
    for (segment, eye) in eyes.iter().enumerate() {
        let words = eye.words();
        if rest < words {
            return Some(WordPlace {
                segment: segment as u32,
                word: rest,
            });
        }
        rest -= words;
    }
    None
}

// The place of a word of the file that these pens write.
pub(crate) fn place_of(pens: &[Pen], word: u32) -> WordPlace
    requires { word < sum (pen_sizes pens.now) }
    ensures segment { result.segment ≡ segment_of (pen_sizes pens.now) word }
    ensures word { result.word ≡ offset_of (pen_sizes pens.now) word }
    ensures segment_there { result.segment < length pens.now }
    ensures word_there { result.word < (pen_at pens.now result.segment).words }
{
    let mut rest = word;
    for (segment, pen) in pens.iter().enumerate() {
        let words = pen.words();
        if rest < words {
            return WordPlace {
                segment: segment as u32,
                word: rest,
            };
        }
        rest -= words;
    }
    unreachable!()
}
