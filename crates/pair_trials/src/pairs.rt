//! A new pair.

use crate::words::TOKEN;
use proxy_trail::{PairEnd, PairRecord, Trail};
use std::alloc::{AllocError, Global};
use take_half::PeerRecord;
use wp_outside::Side;

/// A pair of proxies to which nothing has happened. It is boxed, so that a pointer is what moves.
pub fn new_pair(alloc: Global) -> Result<Box<PairRecord>, AllocError> {
    let pair = pair_by_value(alloc)?;
    Ok(Box::new(alloc, pair)?)
}

fn pair_by_value(alloc: Global) -> Result<PairRecord, AllocError> {
    let near = Trail::new(alloc, Side::Near, TOKEN)?;
    pair_with(alloc, near)
}

fn pair_with(alloc: Global, near: Trail) -> Result<PairRecord, AllocError> {
    match Trail::new(alloc, Side::Far, TOKEN) {
        Ok(far) => Ok(pair_of(alloc, near, far)),
        Err(error) => {
            drop(near);
            Err(error)
        }
    }
}

fn pair_of(alloc: Global, near: Trail, far: Trail) -> PairRecord {
    PairRecord {
        near,
        far,
        application: PeerRecord::new(alloc),
        compositor: PeerRecord::new(alloc),
        connections: 0,
        end: PairEnd::Drained,
    }
}
