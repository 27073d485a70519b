//! The link between both proxies.

use crate::calls::{connect, read, write};
use crate::trouble::Trouble;
use proxy_trail::Trail;
use std::alloc::Global;
use wl_wire::Bytes;

/// The most bytes that come in one piece.
pub const MOST_CARRIED: usize = 65_536;

/// A connection comes up on both sides.
pub fn connect_both(near: &mut Trail, far: &mut Trail, connection: u32) -> Result<(), Trouble> {
    connect(near, connection)?;
    connect(far, connection)
}

/// The connection goes down on both sides.
pub fn break_both(near: &mut Trail, far: &mut Trail) {
    near.link_down();
    far.link_down();
}

// At most so many bytes of what is to be written next go to the line; answers how many.
fn put_front(trail: &mut Trail, line: &mut Bytes, most: usize) -> Result<usize, Trouble> {
    trail.make_room()?;
    let front = trail.lent();
    let count = front.len().min(most);
    line.append(front.split_at(count).0)?;
    write(trail, count)?;
    Ok(count)
}

/// At most so many bytes go to the line, of one front after another.
pub fn put_all(trail: &mut Trail, line: &mut Bytes, most: usize) -> Result<(), Trouble> {
    let mut left = most;
    for _ in 0..u64::MAX {
        let count = put_front(trail, line, left)?;
        if count == 0 {
            break;
        }
        left = left.saturating_sub(count);
    }
    Ok(())
}

/// At most so many bytes are written, and come nowhere.
pub fn lose(alloc: Global, trail: &mut Trail, most: usize) -> Result<(), Trouble> {
    let mut line = Bytes::new(alloc);
    put_all(trail, &mut line, most)
}

/// At most so many bytes are written, and come to the other side as one piece; answers how many.
pub fn carry(
    alloc: Global,
    from: &mut Trail,
    to: &mut Trail,
    most: usize,
) -> Result<usize, Trouble> {
    let mut line = Bytes::new(alloc);
    carry_on(from, to, &mut line, most)
}

fn carry_on(
    from: &mut Trail,
    to: &mut Trail,
    line: &mut Bytes,
    most: usize,
) -> Result<usize, Trouble> {
    put_all(from, line, most)?;
    read(to, line.as_slice())?;
    Ok(line.len())
}

/// All bytes that there are go to the other side, both ways, at most so many in one piece.
pub fn settle(
    alloc: Global,
    near: &mut Trail,
    far: &mut Trail,
    most: usize,
) -> Result<(), Trouble> {
    for _ in 0..u64::MAX {
        let up = carry(alloc, near, far, most)?;
        let down = carry(alloc, far, near, most)?;
        if up == 0 && down == 0 {
            break;
        }
    }
    Ok(())
}
