//! The words that came back, read one after another.

ghost use Rattle.std.specs.Prelude.{◌≡◌, ◌+◌, ◌≤◌, ◌++◌, length, take, drop, OnOk};
ghost use Rattle.half_model.specs.Filling.{words_bytes};
ghost use Rattle.owed_groups.specs.Slots.{words_from};

use super::Copies;
use crate::stage::WordPlace;
use byteorder::{ByteOrder, LittleEndian};
use std::alloc::AllocError;

// The most words of a row, and their bytes.
const ROW_WORDS: usize = 256;

const ROW_BYTES: usize = 8 * ROW_WORDS;

impl Copies {
    /// Puts the bytes of the next words behind others, and goes on behind these words.
    ///
    /// # Errors
    /// Only where memory runs out.
    pub(crate) fn append_words(
        &self,
        place: &mut WordPlace,
        count: usize,
        out: &mut Vec<u8>,
    ) -> Result<(), AllocError>
        ensures bytes { OnOk result (out.new.items
            ≡ out.old.items ++ words_bytes (take count (words_from place.old self.now))) }
        ensures rest { OnOk result (words_from place.new self.now
            ≡ drop count (words_from place.old self.now)) }
    {
        let mut left = count;
        while left > 0 && place.job < self.slots.len() {
            let words = self.slots[place.job].words();
            if place.word < words.len() {
                let next = left.min(words.len() - place.word);
                append_some(out, words, place.word, next)?;
                place.word += next;
                left -= next;
            } else {
                place.word -= words.len();
                place.job += 1;
            }
        }
        Ok(())
    }
}

// Puts the bytes of some words from a place on behind others.
fn append_some(
    out: &mut Vec<u8>,
    words: &[u64],
    from: usize,
    count: usize,
) -> Result<(), AllocError>
    requires { from + count ≤ length words.now }
    ensures { OnOk result (out.new.items
        ≡ out.old.items ++ words_bytes (take count (drop from words.now))) }
{
    append_all(out, words.split_at(from).1.split_at(count).0)
}

// Puts the bytes of words behind others, a row of words at a time.
fn append_all(out: &mut Vec<u8>, words: &[u64]) -> Result<(), AllocError>
    ensures { OnOk result (out.new.items ≡ out.old.items ++ words_bytes words.now) }
{
    let mut room = [0; ROW_BYTES];
    let mut left = words;
    while left.len() > ROW_WORDS {
        let (row, more) = left.split_at(ROW_WORDS);
        append_row(out, row, &mut room)?;
        left = more;
    }
    append_row(out, left, &mut room)
}

// Puts the bytes of a row of words behind others, by way of an array, which is written over: many
// bytes at once cost much less than eight at a time.
#[tactic(auto, unfolding(transfer_frames::specs::Numbers::long_bytes))]
fn append_row(
    out: &mut Vec<u8>,
    words: &[u64],
    room: &mut [u8; ROW_BYTES],
) -> Result<(), AllocError>
    requires { length words.now ≤ 256 }
    ensures { OnOk result (out.new.items ≡ out.old.items ++ words_bytes words.now) }
{
    let bytes = &mut room[..8 * words.len()];
    LittleEndian::write_u64_into(words, bytes);
    out.extend_from_slice(bytes)
}
