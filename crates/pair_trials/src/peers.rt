//! What the peers are given.

use half_model::PeerOut;
use proxy_trail::{PairRecord, Trail};
use std::alloc::AllocError;
use take_half::PeerRecord;

// Takes an item in; a receipt is one that was settled.
fn take(peer: &mut PeerRecord, item: PeerOut) -> Result<(), AllocError> {
    match item {
        PeerOut::Receipt {
            number,
            segment,
            ..
        } => peer.settled(number, segment),
        other => peer.take(other),
    }
}

/// Gives both peers all that their proxies have for them.
pub fn give_both(pair: &mut PairRecord) -> Result<(), AllocError> {
    give_all(&mut pair.near, &mut pair.application)?;
    give_all(&mut pair.far, &mut pair.compositor)
}

// Gives a peer all that its proxy has for it.
fn give_all(trail: &mut Trail, peer: &mut PeerRecord) -> Result<(), AllocError> {
    for _ in 0..u64::MAX {
        match trail.peer_out() {
            Some(item) => take(peer, item)?,
            None => break,
        }
    }
    Ok(())
}
