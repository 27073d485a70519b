//! The frame at the front of a stream.

ghost use Rattle.std.specs.Prelude.{◌≡◌, IfOk, IfSome};
ghost use Rattle.transfer_frames.specs.Front.{front, Answers, frame_alone, Takes};

use crate::cause::DecodeFault;
use crate::frame::Frame;
use crate::numbers::word_at;
use crate::reading::decode;
use crate::rules::type_of_word;
use std::alloc::Global;

/// The frame at the front of a stream and how many bytes it takes, its padding included; None where
/// no whole frame stands there and its first word, if there, isn't at fault.
///
/// # Errors
/// `Frame` with the first fault at the front; `Memory` where a whole frame stands there and memory
/// runs out.
#[tactic(auto, using(crate::proofs::FrontLaws::fronts))]
pub fn first_frame(alloc: Global, bytes: &[u8]) -> Result<Option<(Frame, usize)>, DecodeFault>
    ensures exact { Answers (frame_alone result) (front bytes.now) }
    ensures taken { IfOk result (λ found. IfSome found (λ x. Takes bytes.now x.0 x.1)) }
{
    if bytes.len() < 4 {
        return Ok(None);
    }
    let word = word_at(bytes);
    type_of_word(word)?;
    let length = ((word / 32) as usize + 3) / 4 * 4;
    if bytes.len() < length {
        return Ok(None);
    }
    let (whole, _) = bytes.split_at(length);
    let frame = decode(alloc, whole)?;
    Ok(Some((frame, length)))
}
