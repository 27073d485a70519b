//! Loads and writes of live words, and plain copies of as many words.

ghost use Rattle.std.specs.Prelude.{◌≤◌};

use pool_words::new_pool;
use std::alloc::{AllocError, Global};

/// Loads all words of a pool so many times, each time after one write, and answers the sum of one
/// word of each time.
pub fn sum_of_loads(alloc: Global, words: u32, times: u32) -> Result<u64, AllocError>
    requires { (1 ≤ words) × (words ≤ 8388608) }
{
    let mut pen = new_pool(alloc, 1, words)?;
    let mut out = vec![in alloc; 0u64; words as usize]?;
    let mut sum: u64 = 0;
    for time in 0..times {
        let _ = pen.write(time % words, u64::from(time));
        let mut eye = pen.note()?;
        eye.load(0, out.as_mut_slice());
        sum = sum.wrapping_add(out[(time % words) as usize]);
        let _ = pen.settle(eye.finish());
    }
    Ok(sum)
}

/// Writes each word of a pool so many times, and answers how many writes the pool took.
pub fn count_of_writes(alloc: Global, words: u32, times: u32) -> Result<u64, AllocError>
    requires { (1 ≤ words) × (words ≤ 8388608) }
{
    let mut pen = new_pool(alloc, 1, words)?;
    let mut taken: u64 = 0;
    for time in 0..times {
        for word in 0..words {
            if pen.write(word, u64::from(time)).is_ok() {
                taken = taken.wrapping_add(1);
            }
        }
    }
    Ok(taken)
}

/// Copies as many words so many times, each time after one write, and answers the sum of one word
/// of each time.
pub fn sum_of_copies(alloc: Global, words: u32, times: u32) -> Result<u64, AllocError>
    requires { (1 ≤ words) × (words ≤ 8388608) }
{
    let mut from = vec![in alloc; 0u64; words as usize]?;
    let mut out = vec![in alloc; 0u64; words as usize]?;
    let mut sum: u64 = 0;
    for time in 0..times {
        from[(time % words) as usize] = u64::from(time);
        out.as_mut_slice().copy_from_slice(from.as_slice());
        sum = sum.wrapping_add(out[(time % words) as usize]);
    }
    Ok(sum)
}
