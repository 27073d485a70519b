//! Reading a frame from its bytes.

ghost use Rattle.std.specs.Prelude.{◌≡◌, ◌≤◌, true, None, Some, length, map, IfOk, IsOk};
ghost use Rattle.std.specs.Int.{w32, cast_signed};
ghost use Rattle.transfer_frames.specs.Numbers.{word_of, words_of};
ghost use Rattle.transfer_frames.specs.Grammar.{type_at, Spells};
ghost use Rattle.transfer_frames.specs.Faults.{word_fault, type_in, has_length, body_fault};
ghost use Rattle.transfer_frames.specs.Faults.{frame_length, first_fault};
ghost use Rattle.transfer_frames.specs.Front.{value, frame_in, IsSmall, Reads, TakesNoMemory};

use crate::cause::{DecodeFault, FrameCause};
use crate::frame::Frame;
use crate::kinds::FrameType;
use crate::numbers::{long_at, rid_at, word_at};
use crate::rules::{fault_of_body, type_of_word};
use std::alloc::{AllocError, Global};
use wl_wire::{Bytes, HandleNumbers};

/// The rids that the body of an INJECT has.
fn rids_of(alloc: Global, body: &[u8]) -> Result<HandleNumbers, AllocError>
    ensures { IfOk result (λ rids. rids ≡ map (cast_signed w32) (words_of body.now)) }
{
    let mut rids = Vec::with_capacity(alloc, body.len() / 4)?;
    let mut rest = body;
    'words: while rest.len() >= 4 {
        rids.push(word_at(rest).cast_signed())?;
        rest = rest.split_at(4).1;
    }
    Ok(HandleNumbers::from_vec(rids))
}

/// The FILL that has this body.
fn fill_of(alloc: Global, body: &[u8]) -> Result<Frame, AllocError>
    requires { 12 ≤ length body.now }
    ensures { IfOk result (λ frame. frame ≡ value FrameType.Fill body.now) }
{
    let (_, starts) = body.split_at(4);
    let (_, ends) = body.split_at(8);
    let (_, bytes) = body.split_at(12);
    let bytes = Bytes::from_slice(alloc, bytes)?;
    Ok(Frame::Fill {
        rid: rid_at(body),
        start: word_at(starts),
        end: word_at(ends),
        bytes,
    })
}

/// The PIPE_TRANSFER that has this body.
fn transfer_of(alloc: Global, body: &[u8]) -> Result<Frame, AllocError>
    requires { 4 ≤ length body.now }
    ensures { IfOk result (λ frame. frame ≡ value FrameType.PipeTransfer body.now) }
{
    let (_, bytes) = body.split_at(4);
    let bytes = Bytes::from_slice(alloc, bytes)?;
    Ok(Frame::PipeTransfer {
        rid: rid_at(body),
        bytes,
    })
}

/// The RESTART that has this body.
fn restart_of(body: &[u8]) -> Frame
    requires { length body.now ≡ 28 }
    ensures { result ≡ value FrameType.Restart body.now }
{
    let (front, rest) = body.split_at(16);
    let mut token = [0u8; 16];
    token.copy_from_slice(front);
    let (_, received) = body.split_at(20);
    Frame::Restart {
        token,
        connection: word_at(rest),
        received: long_at(received),
    }
}

/// The frame of this type that has this body.
fn frame_of(alloc: Global, frame_type: FrameType, body: &[u8]) -> Result<Frame, AllocError>
    requires { has_length frame_type (length body.now) ≡ true }
    ensures value { IfOk result (λ frame. frame ≡ value frame_type body.now) }
    ensures small { IsSmall (Some frame_type) → IsOk result }
{
    match frame_type {
        FrameType::Protocol => {
            let messages = Bytes::from_slice(alloc, body)?;
            Ok(Frame::Protocol { messages })
        }
        FrameType::Inject => {
            let rids = rids_of(alloc, body)?;
            Ok(Frame::Inject { rids })
        }
        FrameType::OpenFile => {
            let (_, rest) = body.split_at(4);
            Ok(Frame::OpenFile {
                rid: rid_at(body),
                size: word_at(rest),
            })
        }
        FrameType::ExtendFile => {
            let (_, rest) = body.split_at(4);
            Ok(Frame::ExtendFile {
                rid: rid_at(body),
                size: word_at(rest),
            })
        }
        FrameType::Fill => fill_of(alloc, body),
        FrameType::OpenPipe => Ok(Frame::OpenPipe { rid: rid_at(body) }),
        FrameType::PipeTransfer => transfer_of(alloc, body),
        FrameType::PipeShutR => Ok(Frame::PipeShutR { rid: rid_at(body) }),
        FrameType::PipeShutW => Ok(Frame::PipeShutW { rid: rid_at(body) }),
        FrameType::Ack => Ok(Frame::Ack {
            count: long_at(body),
        }),
        FrameType::Restart => Ok(restart_of(body)),
        FrameType::Close => Ok(Frame::Close {
            reason: word_at(body),
        }),
    }
}

/// The frame of this type that has this body, or the first cause that body and padding show.
fn checked(
    alloc: Global,
    frame_type: FrameType,
    body: &[u8],
    padding: &[u8],
) -> Result<Frame, DecodeFault>
    ensures reads { Reads result (body_fault frame_type body.now padding.now)
        (Some (value frame_type body.now)) }
    ensures small { IsSmall (Some frame_type) → TakesNoMemory result }
{
    match fault_of_body(frame_type, body, padding) {
        Some(cause) => Err(DecodeFault::Frame(cause)),
        None => Ok(frame_of(alloc, frame_type, body)?),
    }
}

/// The frame that the bytes spell, or their first fault.
#[tactic(auto, unfolding(crate::specs::Faults::first_fault, crate::specs::Front::frame_in))]
fn read(alloc: Global, bytes: &[u8]) -> Result<Frame, DecodeFault>
    requires word { 4 ≤ length bytes.now }
    requires whole { word_fault (word_of bytes.now) ≡ None
        → length bytes.now ≡ frame_length (word_of bytes.now) }
    ensures reads { Reads result (first_fault bytes.now) (frame_in bytes.now) }
    ensures small { IsSmall (type_at (type_in (word_of bytes.now))) → TakesNoMemory result }
{
    let word = word_at(bytes);
    let frame_type = type_of_word(word)?;
    let (whole, padding) = bytes.split_at((word / 32) as usize);
    let (_, body) = whole.split_at(4);
    checked(alloc, frame_type, body, padding)
}

/// The frame that the bytes spell. Only PROTOCOL, INJECT, FILL and PIPE_TRANSFER take memory:
/// RESTART, ACK and CLOSE are read without.
///
/// # Errors
/// `Frame` with the first fault of the bytes; `Memory` where they are a frame and memory runs out.
pub fn decode(alloc: Global, bytes: &[u8]) -> Result<Frame, DecodeFault>
    requires word { 4 ≤ length bytes.now }
    requires whole { word_fault (word_of bytes.now) ≡ None
        → length bytes.now ≡ frame_length (word_of bytes.now) }

    // What is read is spelled so, each byte of it.
    ensures found { IfOk result (λ frame. Spells frame bytes.now) }
    // What is spelled so is read, unless memory runs out.
    ensures only { (frame : Frame) → Spells frame bytes.now → Reads result None (Some frame) }
    // Which frame or fault it is.
    ensures exact { Reads result (first_fault bytes.now) (frame_in bytes.now) }
    ensures small { IsSmall (type_at (type_in (word_of bytes.now))) → TakesNoMemory result }
{
    read(alloc, bytes)
}
