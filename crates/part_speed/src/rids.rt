//! Handles of the other side, in the order of their rids or picked for their hash.

use handle_table::Handles;
use std::alloc::{AllocError, Global};
use std::hash::{BuildHasher, BuildHasherDefault, FoldHasher};
use wp_outside::{HandleKind, Side};

/// Rids that a stranger could choose.
#[derive(Clone, Copy, Debug, PartialEq, Eq)]
pub struct Choice {
    /// How many.
    pub count: u32,
    /// So many of the lowest bits of each one's hash are 0: with 0 bits the rids are 1, 2, 3 ..
    pub bits: u32,
}

/// Takes the rids into a new table so many times, looks each one up, and answers how many were
/// found in all.
pub fn count_of_rids(alloc: Global, choice: Choice, times: u32) -> Result<u64, AllocError> {
    let rids = chosen(alloc, choice)?;
    let mut found: u64 = 0;
    for _ in 0..times {
        found = found.wrapping_add(count_of_kept(alloc, &rids)?);
    }
    Ok(found)
}

// The first rids of such a hash.
fn chosen(alloc: Global, choice: Choice) -> Result<Vec<i32>, AllocError> {
    let hasher = BuildHasherDefault::<FoldHasher>::new();
    let unwanted = (1u64 << choice.bits.min(32)) - 1;
    let mut rids = Vec::new(alloc);
    for rid in 1..i32::MAX {
        if rids.len() >= choice.count as usize {
            break;
        }
        let hash = hasher.hash_one(rid);
        // A hash table puts a key where both halves of its hash say.
        if (hash ^ (hash >> 32)) & unwanted == 0 {
            rids.push(rid)?;
        }
    }
    Ok(rids)
}

// Takes rids into a new table, and answers how many of them it then keeps.
fn count_of_kept(alloc: Global, rids: &[i32]) -> Result<u64, AllocError> {
    let mut table = Handles::new(alloc, Side::Far);
    for rid in rids {
        if table.kind_of(*rid).is_none() {
            table.took(*rid, HandleKind::File)?;
        }
    }
    let mut found: u64 = 0;
    for rid in rids {
        if table.kind_of(*rid).is_some() {
            found = found.wrapping_add(1);
        }
    }
    Ok(found)
}
