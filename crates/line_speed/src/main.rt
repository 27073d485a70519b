//! Moves bytes through a line in memory from one thread to another, or copies as many on one thread,
//! as each line of its input says, so that a script can measure it. It is no part of the program.
#![tactic(auto)]

mod carriers;

use carriers::{carried, copied};
use std::alloc::{AllocError, Global};
use std::io;
use std::sync::Wait;
use std::thread::Threads;

// What a line may be.
const WANTED: &str = "line PIECE TOTAL or copy PIECE TOTAL, each above 0 and in bytes";

// Does what a line says, and answers the bytes that were moved.
fn done<R: Threads + Wait + Clone + Send + Sync>(
    rt: &R,
    alloc: Global,
    line: &str,
) -> Result<Option<u64>, AllocError> {
    let mut fields = line.split_whitespace();
    let (Some(name), Some(piece), Some(total)) = (fields.next(), fields.next(), fields.next())
    else {
        return Ok(None);
    };
    let (Ok(piece), Ok(total)) = (piece.parse::<u32>(), total.parse::<u64>()) else {
        return Ok(None);
    };
    if piece == 0 {
        return Ok(None);
    }
    match name {
        "line" => Ok(Some(carried(rt, alloc, piece, total)?)),
        "copy" => Ok(Some(copied(alloc, piece, total)?)),
        _ => Ok(None),
    }
}

fn main(rt: HostRuntime) -> io::Result<()> {
    for line in rt.lines(rt.alloc()) {
        match done(&rt, rt.alloc(), line?.as_str())? {
            Some(bytes) => println!(rt; "{bytes}")?,
            None => println!(rt; "{WANTED}")?,
        }
    }
    Ok(())
}
