//! Messages and whole images that a sending half makes frames of.

use crate::requests::{BUFFER, COMMIT, DAMAGE, SURFACE};
use crate::sender::{Sender, let_go};
use half_model::{HalfFault, PeerIn};
use handle_table::Handle;
use shm_pools::{FileEyesList, FilePen, Note};
use std::alloc::{AllocError, Global};
use wl_wire::Bytes;
use wp_outside::{HandleKind, Side};

// The bytes of an image of 640 by 480 pixels.
const IMAGE: u32 = 1_228_800;

/// Sends a piece of so many messages of 24 bytes so many times, and answers how many frames were
/// made.
pub fn messages_sent(alloc: Global, count: u32, times: u32) -> Result<u64, AllocError> {
    let mut sender = Sender::new(alloc, Side::Near)?;
    let answer = send_messages(alloc, &mut sender, count, times);
    let_go(sender);
    answer
}

/// Sends a whole image so many times, damaged and committed, and answers how many frames were made.
pub fn images_sent(alloc: Global, times: u32) -> Result<u64, AllocError> {
    let mut pen = FilePen::new(alloc, 1, IMAGE)?;
    send_from(alloc, &mut pen, times)
}

fn send_from(alloc: Global, pen: &mut FilePen, times: u32) -> Result<u64, AllocError> {
    let mut sender = Sender::new(alloc, Side::Near)?;
    let answer = send_images(alloc, &mut sender, pen, times);
    let_go(sender);
    answer
}

fn send_messages(
    alloc: Global,
    sender: &mut Sender,
    count: u32,
    times: u32,
) -> Result<u64, AllocError> {
    show_surface(alloc, sender)?;
    let mut frames: u64 = 0;
    for _ in 0..times {
        frames = frames.wrapping_add(say(sender, damages(alloc, count)?)?);
    }
    Ok(frames)
}

fn send_images(
    alloc: Global,
    sender: &mut Sender,
    pen: &mut FilePen,
    times: u32,
) -> Result<u64, AllocError> {
    show_surface(alloc, sender)?;
    show_buffer(alloc, sender)?;
    let mut frames: u64 = 0;
    for _ in 0..times {
        note(alloc, sender, pen)?;
        frames = frames.wrapping_add(say(sender, commit(alloc)?)?);
    }
    Ok(frames)
}

// A surface is made.
fn show_surface(alloc: Global, sender: &mut Sender) -> Result<u64, AllocError> {
    say(sender, Bytes::from_slice(alloc, &SURFACE)?)
}

// The surface shows a buffer in the file.
fn show_buffer(alloc: Global, sender: &mut Sender) -> Result<u64, AllocError> {
    hand_file(sender)?;
    say(sender, Bytes::from_slice(alloc, &BUFFER)?)
}

fn hand_file(sender: &mut Sender) -> Result<(), AllocError> {
    let handle = Handle {
        number: 1,
        kind: HandleKind::File,
    };
    without_fault(sender.feed(PeerIn::Handle(handle)))
}

// So many requests that damage the whole image.
fn damages(alloc: Global, count: u32) -> Result<Bytes, AllocError> {
    let mut piece = Bytes::new(alloc);
    for _ in 0..count {
        piece.append(&DAMAGE)?;
    }
    Ok(piece)
}

// The requests that damage the whole image and commit it.
fn commit(alloc: Global) -> Result<Bytes, AllocError> {
    let mut piece = damages(alloc, 1)?;
    piece.append(&COMMIT)?;
    Ok(piece)
}

// The peer notes the words of its file.
fn note(alloc: Global, sender: &mut Sender, pen: &mut FilePen) -> Result<(), AllocError> {
    let mut files = FileEyesList::new(alloc);
    files.push(pen.share()?)?;
    without_fault(sender.feed(PeerIn::Note(Note { files })))
}

// The peer says so much, and all that comes of it is taken; answers how many frames that were.
fn say(sender: &mut Sender, bytes: Bytes) -> Result<u64, AllocError> {
    without_fault(sender.feed(PeerIn::Bytes(bytes)))?;
    let mut frames: u64 = 0;
    for _ in 0..u64::MAX {
        if !without_fault(sender.treat())? {
            break;
        }
        frames = frames.wrapping_add(take_made(sender)?);
    }
    Ok(frames)
}

// Makes the copies of a message, and takes its frames, receipts and notes.
fn take_made(sender: &mut Sender) -> Result<u64, AllocError> {
    for _ in 0..u64::MAX {
        if !without_fault(sender.copy())? {
            break;
        }
    }
    let frames = count_frames(sender);
    drop_records(sender);
    Ok(frames)
}

// Takes the frames that were made, and answers how many they were.
fn count_frames(sender: &mut Sender) -> u64 {
    let mut frames: u64 = 0;
    for _ in 0..u64::MAX {
        if sender.next_frame().is_none() {
            break;
        }
        frames = frames.wrapping_add(1);
    }
    frames
}

// Takes the receipts and the notes.
fn drop_records(sender: &mut Sender) {
    for _ in 0..u64::MAX {
        if sender.next_receipt().is_none() && sender.noted().is_none() {
            break;
        }
    }
}

// A half that fails counts as want of memory here.
fn without_fault<T: Drop>(answer: Result<T, HalfFault>) -> Result<T, AllocError> {
    match answer {
        Ok(value) => Ok(value),
        Err(_) => Err(AllocError),
    }
}
