//! The tests that a frame's bytes must pass, in their order.

ghost use Rattle.std.specs.Prelude.{◌≡◌, ◌≤◌, ◌==◌, ◌/◌, true, length, MatchResult, OnOk, IfNone};
ghost use Rattle.std.specs.Prelude.{Some, None};
ghost use Rattle.std.specs.List.{list_any, list_all};
ghost use Rattle.transfer_frames.specs.Numbers.{word_of, words_of};
ghost use Rattle.transfer_frames.specs.Grammar.{type_at};
ghost use Rattle.transfer_frames.specs.Faults.{word_fault, type_in, has_length, has_zero_rid};
ghost use Rattle.transfer_frames.specs.Faults.{has_range, has_messages, body_fault};

use crate::cause::FrameCause;
use crate::frame::{LARGEST_FRAME, LONGEST_TRANSFER};
use crate::kinds::{FrameType, type_with};
use crate::numbers::word_at;
use wl_wire::all_messages;

/// The type that the first word names, or the first cause that the word shows.
#[tactic(auto, unfolding(crate::specs::Faults::word_fault))]
pub fn type_of_word(word: u32) -> Result<FrameType, FrameCause>
    ensures exact { MatchResult result
        (λ type. (word_fault word ≡ None) × (type_at (type_in word) ≡ Some type))
        (λ cause. word_fault word ≡ Some cause) }
    ensures sized { OnOk result ((4 ≤ word / 32) × (word / 32 ≤ LARGEST_FRAME)) }
{
    let size = word / 32;
    let number = word % 32;
    if size < 4 {
        return Err(FrameCause::SizeSmall);
    }
    if size > LARGEST_FRAME {
        return Err(FrameCause::SizeLarge);
    }
    if number > 18 {
        return Err(FrameCause::UnknownType);
    }
    match type_with(number) {
        Some(frame_type) => Ok(frame_type),
        None => Err(FrameCause::LeftOut(number as u8)),
    }
}

/// Whether a body of this type may have this length.
pub fn fits_length(frame_type: FrameType, length: usize) -> bool
    ensures { result ≡ has_length frame_type length }
{
    match frame_type {
        FrameType::Protocol => length >= 8,
        FrameType::Inject => length > 0 && length % 4 == 0,
        FrameType::OpenFile => length == 8,
        FrameType::ExtendFile => length == 8,
        FrameType::Fill => length > 12 && (length - 12) % 64 == 0,
        FrameType::OpenPipe => length == 4,
        FrameType::PipeTransfer => length >= 5 && length <= 4 + LONGEST_TRANSFER,
        FrameType::PipeShutR => length == 4,
        FrameType::PipeShutW => length == 4,
        FrameType::Ack => length == 8,
        FrameType::Restart => length == 28,
        FrameType::Close => length == 4,
    }
}

/// Whether all bytes are 0.
pub fn are_zeros(bytes: &[u8]) -> bool
    ensures { result ≡ list_all (λ b. b == 0) bytes.now }
{
    bytes.iter().all(|byte| *byte == 0)
}

/// Whether one of the words is 0, taken from the front.
fn has_zero_word(bytes: &[u8]) -> bool
    ensures { result ≡ list_any (λ word. word == 0) (words_of bytes.now) }
{
    let mut rest = bytes;
    'words: while rest.len() >= 4 {
        if word_at(rest) == 0 {
            return true;
        }
        rest = rest.split_at(4).1;
    }
    false
}

/// Whether a rid of the body is 0.
fn is_rid_zero(frame_type: FrameType, body: &[u8]) -> bool
    requires { has_length frame_type (length body.now) ≡ true }
    ensures { result ≡ has_zero_rid frame_type body.now }
{
    match frame_type {
        FrameType::Protocol | FrameType::Ack | FrameType::Restart | FrameType::Close => false,
        FrameType::Inject => has_zero_word(body),
        _ => word_at(body) == 0,
    }
}

/// Whether the range of a FILL is one of whole blocks, as long as its bytes.
fn fits_range(frame_type: FrameType, body: &[u8]) -> bool
    requires { has_length frame_type (length body.now) ≡ true }
    ensures { result ≡ has_range frame_type body.now }
{
    match frame_type {
        FrameType::Fill => {
            let (_, rest) = body.split_at(4);
            let start = word_at(rest);
            let (_, rest) = body.split_at(8);
            let end = word_at(rest);
            start % 64 == 0 && end % 64 == 0 && end as usize == start as usize + (body.len() - 12)
        }
        _ => true,
    }
}

/// Whether the body of a PROTOCOL is a row of whole messages.
fn fits_messages(frame_type: FrameType, body: &[u8]) -> bool
    ensures { result ≡ has_messages frame_type body.now }
{
    match frame_type {
        FrameType::Protocol => all_messages(body),
        _ => true,
    }
}

/// The first cause that a body and a padding show.
#[tactic(auto, unfolding(crate::specs::Faults::body_fault))]
pub fn fault_of_body(frame_type: FrameType, body: &[u8], padding: &[u8]) -> Option<FrameCause>
    ensures exact { result ≡ body_fault frame_type body.now padding.now }
    ensures length { IfNone result (has_length frame_type (length body.now) ≡ true) }
{
    if !fits_length(frame_type, body.len()) {
        return Some(FrameCause::BodyLength);
    }
    if !are_zeros(padding) {
        return Some(FrameCause::Padding);
    }
    if is_rid_zero(frame_type, body) {
        return Some(FrameCause::RidZero);
    }
    if !fits_range(frame_type, body) {
        return Some(FrameCause::FillRange);
    }
    if !fits_messages(frame_type, body) {
        return Some(FrameCause::MessageCut);
    }
    None
}
