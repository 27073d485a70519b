//! What the mirrors of a side's files have at each message that it made.
#![tactic(auto)]

mod laws;
mod rows;

pub use laws::{
    each_has_stood_words, each_message_is_grouped, mirror_at_message, mirrors_are_sized,
    untouched_is_noted, words_stood,
};
pub use rows::{changing_word, commit_fills, picture_drawn, wrong_mirrors};
