//! A link that ends behind any byte of a small session.

use crate::calls::say_words;
use crate::links::{break_both, carry, connect_both, settle};
use crate::pairs::new_pair;
use crate::trouble::Trouble;
use crate::words::bytes_of;
use half_model::PeerOut;
use pair_audit::audit;
use proxy_trail::{PairRecord, Trail};
use std::alloc::Global;
use wl_wire::Bytes;

// Each side writes RESTART, of 32 bytes, three frames of 16 bytes and ACKs of 12; a byte of each
// side goes over the link in turn. Some moves more change nothing.
const MOST_MOVES: u32 = 250;

// What the application and the compositor say.
const REQUESTS: &str = "sync-2 sync-3 sync-8";

const EVENTS: &str = "delete-12 delete-13 delete-14";

/// Cuts the link behind each number of moves, and answers behind how many of them all was right.
pub fn cuts(alloc: Global) -> Result<u32, Trouble> {
    let mut right: u32 = 0;
    for moves in 0..MOST_MOVES {
        if is_right(alloc, moves)? {
            right = right.wrapping_add(1);
        }
    }
    Ok(right)
}

fn is_right(alloc: Global, moves: u32) -> Result<bool, Trouble> {
    let mut pair = new_pair(alloc)?;
    go_through(alloc, &mut pair, moves)
}

fn go_through(alloc: Global, pair: &mut PairRecord, moves: u32) -> Result<bool, Trouble> {
    let (near, far) = (&mut pair.near, &mut pair.far);
    say_words(alloc, near, 1, REQUESTS)?;
    say_words(alloc, far, 1, EVENTS)?;
    connect_both(near, far, 1)?;
    carry_bytes(alloc, near, far, moves)?;
    break_both(near, far);
    connect_both(near, far, 2)?;
    settle(alloc, near, far, 7)?;
    let is_given = gives(alloc, near, EVENTS)? && gives(alloc, far, REQUESTS)?;
    Ok(is_given && has_all(near) && has_all(far) && audit(near, far).is_ok())
}

fn carry_bytes(
    alloc: Global,
    near: &mut Trail,
    far: &mut Trail,
    moves: u32,
) -> Result<(), Trouble> {
    for moved in 0..moves {
        if moved % 2 == 0 {
            carry(alloc, near, far, 1)?;
        } else {
            carry(alloc, far, near, 1)?;
        }
    }
    Ok(())
}

// The other side's frames were accepted once, their messages were given once, and the own frames
// are acknowledged.
fn has_all(trail: &Trail) -> bool {
    trail.accepted() == 3 && trail.acknowledged() == 3 && trail.record().given == 3
}

// Gives its peer all that waits, and answers whether that is the messages of a row of words.
fn gives(alloc: Global, trail: &mut Trail, words: &str) -> Result<bool, Trouble> {
    let wanted = bytes_of(alloc, 1, words)?;
    let mut given = Bytes::new(alloc);
    give(trail, &mut given)?;
    Ok(given.as_slice() == wanted.as_slice())
}

fn give(trail: &mut Trail, given: &mut Bytes) -> Result<(), Trouble> {
    for _ in 0..u64::MAX {
        match trail.peer_out() {
            Some(PeerOut::Bytes(message)) => given.append(message.as_slice())?,
            Some(_) => return Err(Trouble::NoWord),
            None => break,
        }
    }
    Ok(())
}
