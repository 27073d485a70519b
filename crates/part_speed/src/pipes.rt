//! Pieces that go through a pipe.

use pipe_relay::Pipes;
use plain_lists::PlainList;
use std::alloc::{AllocError, Global};
use transfer_frames::Frame;
use wp_outside::{PipeItem, Side};

// The rid of the one pipe.
const RID: i32 = 1;

/// Carries a piece of so many bytes through a pipe so many times, from the peer that writes it to a
/// frame and from the frame to the peer that reads it, and answers how many bytes came out.
pub fn bytes_through(alloc: Global, bytes: u32, times: u32) -> Result<u64, AllocError> {
    let mut writer = Pipes::new(alloc, Side::Far);
    writer.open_other(RID)?;
    let mut owner = Pipes::new(alloc, Side::Near);
    owner.open_own(RID)?;
    let piece = PlainList::from_vec(vec![in alloc; 7u8; bytes as usize]?);
    let item = PipeItem::Bytes {
        pipe: RID,
        bytes: piece,
    };
    let mut sum: u64 = 0;
    for _ in 0..times {
        sum = sum.wrapping_add(carried(&mut writer, &mut owner, &item));
    }
    Ok(sum)
}

// How many bytes of an item come out.
fn carried(writer: &mut Pipes, owner: &mut Pipes, item: &PipeItem) -> u64 {
    match writer.from_peer(item) {
        Ok(Some(Frame::PipeTransfer { rid, bytes })) => {
            match owner.from_link(&Frame::PipeTransfer { rid, bytes }) {
                Ok(Some(PipeItem::Bytes { bytes, .. })) => bytes.len() as u64,
                _ => 0,
            }
        }
        _ => 0,
    }
}
