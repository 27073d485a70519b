//! Records that weigh nearly as much as they may.

ghost use Rattle.transfer_frames.specs.Grammar.{IsReply};

use crate::calls::{connect, copy_all, hand, note, read, say_words, write};
use crate::trouble::Trouble;
use crate::words::TOKEN;
use proxy_trail::Trail;
use shm_pools::FilePen;
use std::alloc::Global;
use transfer_frames::{Frame, put_small};
use wp_outside::HandleKind;

// An image of 4,096 by 1,024 pixels.
const IMAGE: u32 = 16_777_216;

// Its messages: `create_pool` as object 6, `create_buffer` as object 7, `attach` and `commit`.
const SHOWN: &str = "04000000000010000600000000000001 \
    0600000000002000070000000000000000100000000400000040000000000000 attach";

// The first word of a frame of 1,048,576 bytes.
const LONG_FRAME: [u8; 4] = [0, 0, 0, 2];

/// A proxy that has done nothing shows a large image, and sends it on connection after connection,
/// until its record weighs just so much: at the end it reads a part of a frame. One connection is
/// up then, whose RESTART was read.
pub fn weigh(alloc: Global, trail: &mut Trail, weight: u64) -> Result<(), Trouble> {
    show_image(alloc, trail)?;
    send_again(trail, weight)?;
    read(trail, &LONG_FRAME)?;
    read_zeros(alloc, trail, weight.saturating_sub(trail.weight()))
}

fn show_image(alloc: Global, trail: &mut Trail) -> Result<(), Trouble> {
    say_words(alloc, trail, 1, "registry compositor shm surface")?;
    hand(trail, 2, HandleKind::File)?;
    say_words(alloc, trail, 1, SHOWN)?;
    let mut pen = FilePen::new(alloc, 2, IMAGE)?;
    commit_image(alloc, trail, &mut pen)
}

fn commit_image(alloc: Global, trail: &mut Trail, pen: &mut FilePen) -> Result<(), Trouble> {
    note(alloc, trail, pen.share()?)?;
    say_words(alloc, trail, 1, "commit")?;
    copy_all(trail)
}

// Sends all frames on one connection after another, while the next one leaves room for the first
// word of a frame.
fn send_again(trail: &mut Trail, weight: u64) -> Result<(), Trouble> {
    for connection in 1..64 {
        trail.link_down();
        greet(trail, connection)?;
        if !send_on(trail, weight)? {
            break;
        }
    }
    Ok(())
}

// A connection comes up, and the other side's RESTART is read, which acknowledges nothing.
fn greet(trail: &mut Trail, connection: u32) -> Result<(), Trouble> {
    connect(trail, connection)?;
    read_reply(
        trail,
        &Frame::Restart {
            token: TOKEN,
            connection,
            received: 0,
        },
    )
}

fn read_reply(trail: &mut Trail, frame: &Frame) -> Result<(), Trouble>
    requires { IsReply frame.now }
{
    let mut bytes = [0; 64];
    let length = put_small(frame, &mut bytes);
    read(trail, bytes.split_at(length).0)
}

// Whether all frames were sent.
fn send_on(trail: &mut Trail, weight: u64) -> Result<bool, Trouble> {
    for _ in 0..u64::MAX {
        let count = trail.lent().len();
        if count == 0 {
            return Ok(true);
        }
        let heavier = trail.weight().saturating_add(count as u64);
        if heavier.saturating_add(4) > weight {
            return Ok(false);
        }
        trail.make_room()?;
        write(trail, count)?;
    }
    Ok(true)
}

fn read_zeros(alloc: Global, trail: &mut Trail, count: u64) -> Result<(), Trouble> {
    let zeros = vec![in alloc; 0u8; count as usize]?;
    read(trail, zeros.as_slice())
}
