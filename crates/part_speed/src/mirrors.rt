//! Fills of a mirror.

use mirror_pools::Mirrors;
use std::alloc::{AllocError, Global};

// The rid of the one mirror.
const RID: i32 = 1;

/// Fills a mirror of so many bytes whole, so many times, and answers the sum of one byte of each
/// time.
pub fn sum_of_fills(alloc: Global, bytes: u32, times: u32) -> Result<u64, AllocError> {
    let mut mirrors = Mirrors::new(alloc);
    if mirrors.check_open(RID, bytes).is_err() {
        return Ok(0);
    }
    mirrors.open(RID, bytes)?;
    let mut sum: u64 = 0;
    let mut piece = vec![in alloc; 0u8; bytes as usize]?;
    for time in 0..times {
        if let Some(first) = piece.as_mut_slice().first_mut() {
            *first = (time % 256) as u8;
        }
        sum = sum.wrapping_add(first_of_fill(&mut mirrors, piece.as_slice()));
    }
    Ok(sum)
}

// The first byte of the mirror once it is filled with a piece.
fn first_of_fill(mirrors: &mut Mirrors, piece: &[u8]) -> u64 {
    let Ok(end) = u32::try_from(piece.len()) else {
        return 0;
    };
    if mirrors.check_fill(RID, end).is_ok() {
        mirrors.fill(RID, 0, piece);
    }
    match mirrors.bytes(RID).and_then(|bytes| bytes.first()) {
        Some(first) => u64::from(*first),
        None => 0,
    }
}
