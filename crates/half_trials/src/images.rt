//! Frames of whole images that a taking half takes, for a peer that receives what they mean.

use crate::requests::{COMMIT, DAMAGE, SURFACE};
use crate::taker::{Taker, let_go};
use half_model::{FrameList, TakeFault};
use std::alloc::{AllocError, Global};
use transfer_frames::Frame;
use wl_wire::Bytes;
use wp_outside::Side;

// The rid of the one file.
const RID: i32 = 1;

// The most bytes of one fill.
const MOST_FILLED: usize = 1_048_512;

/// Gives a peer a whole image of so many bytes so many times, by its frames, and answers how many
/// of these were taken; 0 where a file can't have so many bytes.
pub fn images_taken(alloc: Global, bytes: u32, times: u32) -> Result<u64, AllocError> {
    let image = vec![in alloc; 7u8; bytes as usize]?;
    take_image(alloc, image.as_slice(), times)
}

fn take_image(alloc: Global, image: &[u8], times: u32) -> Result<u64, AllocError> {
    let mut taker = Taker::new(alloc, Side::Far)?;
    let answer = take_images(alloc, &mut taker, image, times);
    let_go(taker);
    answer
}

/// Makes the frames of a whole image of so many bytes so many times, which nobody takes, and
/// answers how many they were.
pub fn images_made(alloc: Global, bytes: u32, times: u32) -> Result<u64, AllocError> {
    let image = vec![in alloc; 7u8; bytes as usize]?;
    let mut made: u64 = 0;
    for _ in 0..times {
        made = made.wrapping_add(frames_of(alloc, image.as_slice())?.len() as u64);
    }
    Ok(made)
}

fn take_images(
    alloc: Global,
    taker: &mut Taker,
    image: &[u8],
    times: u32,
) -> Result<u64, AllocError> {
    if !takes(taker, messages(alloc, &SURFACE)?)? || !takes(taker, opened(image))? {
        return Ok(0);
    }
    let mut taken: u64 = 0;
    for _ in 0..times {
        taken = taken.wrapping_add(count_taken(taker, frames_of(alloc, image)?)?);
    }
    Ok(taken)
}

// How many of some frames are taken.
fn count_taken(taker: &mut Taker, frames: FrameList) -> Result<u64, AllocError> {
    let mut taken: u64 = 0;
    for frame in frames.into_vec() {
        if takes(taker, frame)? {
            taken = taken.wrapping_add(1);
        }
    }
    Ok(taken)
}

// Takes a frame, and gives the peer what it means; false where the frame is refused.
fn takes(taker: &mut Taker, frame: Frame) -> Result<bool, AllocError> {
    match taker.accept(frame) {
        Ok(()) => {
            give_all(taker)?;
            Ok(true)
        }
        Err(TakeFault::Frame(_)) => Ok(false),
        Err(TakeFault::Memory) => Err(AllocError),
    }
}

// Gives the peer all that waits for it.
fn give_all(taker: &mut Taker) -> Result<(), AllocError> {
    for _ in 0..u64::MAX {
        match taker.next() {
            Some(item) => taker.receive(item)?,
            None => break,
        }
    }
    Ok(())
}

// The frame of the file, which has just the image.
fn opened(image: &[u8]) -> Frame {
    Frame::OpenFile {
        rid: RID,
        size: size_of(image),
    }
}

fn messages(alloc: Global, bytes: &[u8]) -> Result<Frame, AllocError> {
    let messages = Bytes::from_slice(alloc, bytes)?;
    Ok(Frame::Protocol { messages })
}

// The fill of the file with a piece that begins here.
fn fill(alloc: Global, start: u32, piece: &[u8]) -> Result<Frame, AllocError> {
    let bytes = Bytes::from_slice(alloc, piece)?;
    Ok(Frame::Fill {
        rid: RID,
        start,
        end: start.saturating_add(size_of(piece)),
        bytes,
    })
}

fn size_of(bytes: &[u8]) -> u32 {
    u32::try_from(bytes.len()).unwrap_or(u32::MAX)
}

// The frames of a whole image: its damage, its bytes and its commit.
fn frames_of(alloc: Global, image: &[u8]) -> Result<FrameList, AllocError> {
    let mut frames = FrameList::new(alloc);
    frames.push(messages(alloc, &DAMAGE)?)?;
    let mut start: u32 = 0;
    for piece in image.chunks(MOST_FILLED) {
        frames.push(fill(alloc, start, piece)?)?;
        start = start.saturating_add(MOST_FILLED as u32);
    }
    frames.push(messages(alloc, &COMMIT)?)?;
    Ok(frames)
}
