//! From the frames of a sending half to the bytes of a ring.

ghost use Rattle.std.specs.Prelude.{◌≡◌, ◌+◌, ◌≤◌, ◌++◌, length, None, map, IfOk, OnOk, OnErr};
ghost use Rattle.std.specs.VecDeque.{deque_len, deque_capacity};
ghost use Rattle.std.specs.List.{AllByRecursion};
ghost use Rattle.transfer_frames.specs.Grammar.{IsFrame, spelling};
ghost use Rattle.pair_model.specs.RingState.{ring_push_all};
ghost use Rattle.proxy_core.specs.Making.{HasPlaces, without_frames, without_notes, emptied};

use ack_ring::Ring;
use half_model::Noted;
use send_half::SendHalf;
use std::alloc::{AllocError, Global};
use std::collections::VecDeque;
use transfer_frames::encode;
use wl_wire::Bytes;

// Takes the frames that a half made, each as its bytes.
//
// Errors: only where memory runs out; some of the frames may be lost then, and nothing else of the half is
// changed.
fn take_frames(alloc: Global, half: &mut SendHalf) -> Result<VecDeque<Bytes>, AllocError>
    requires running { half.old.fault ≡ None }
    requires frames { AllByRecursion IsFrame half.old.frames }
    ensures spelled { IfOk result (λ frames. frames.items ≡ map spelling half.old.frames) }
    ensures rest { without_frames half.new ≡ without_frames half.old }
    ensures all { IfOk result (λ _. half.new ≡ without_frames half.old) }
{
    let mut spelled = VecDeque::new(alloc);
    'frames: loop {
        match half.next_frame() {
            Some(frame) => spelled.push_back(encode(alloc, &frame)?)?,
            None => return Ok(spelled),
        }
    }
}

/// Takes what a half noted, behind what was noted before. Takes no memory.
pub(crate) fn take_notes(half: &mut SendHalf, notes: &mut VecDeque<Noted>)
    requires room { deque_len notes.old + length half.old.noted ≤ deque_capacity notes.old }
    ensures noted { notes.new.items ≡ notes.old.items ++ half.old.noted }
    ensures all { half.new ≡ without_notes half.old }
{
    'notes: loop {
        match half.noted() {
            Some(note) => notes.push_back(note).unwrap(),
            None => return,
        }
    }
}

// Keeps frames in the ring, in order. Takes no memory.
fn push_all(ring: &mut Ring, frames: VecDeque<Bytes>)
    requires { HasPlaces ring.old frames.items }
    ensures { ring.new ≡ ring_push_all frames.items ring.old }
{
    let mut frames = frames;
    'frames: loop {
        match frames.pop_front() {
            Some(frame) => ring.push(frame),
            None => return,
        }
    }
}

/// Takes all that a half made and noted: its frames into the ring, and its notes.
///
/// # Errors
/// Only where memory runs out. Then the ring and the notes are as before; frames may be lost, and
/// nothing else of the half is changed.
pub(crate) fn take_made(
    alloc: Global,
    half: &mut SendHalf,
    notes: &mut VecDeque<Noted>,
    ring: &mut Ring,
) -> Result<(), AllocError>
    requires running { half.old.fault ≡ None }
    requires frames { AllByRecursion IsFrame half.old.frames }
    requires places { HasPlaces ring.old (map spelling half.old.frames) }
    requires room { deque_len notes.old + length half.old.noted ≤ deque_capacity notes.old }
    ensures all { OnOk result (half.new ≡ emptied half.old) }
    ensures noted { OnOk result (notes.new.items ≡ notes.old.items ++ half.old.noted) }
    ensures pushed { OnOk result (ring.new ≡ ring_push_all (map spelling half.old.frames) ring.old) }
    ensures rest { OnErr result (without_frames half.new ≡ without_frames half.old) }
    ensures same_notes { OnErr result (notes.new.items ≡ notes.old.items) }
    ensures same_ring { OnErr result (ring.new ≡ ring.old) }
{
    let frames = take_frames(alloc, half)?;
    take_notes(half, notes);
    push_all(ring, frames);
    Ok(())
}
