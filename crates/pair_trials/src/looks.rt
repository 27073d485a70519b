//! What a proxy shows.

use half_model::PeerOut;
use pair_audit::audit;
use pair_report::{ReportOptions, report};
use proxy_trail::{PairRecord, Trail};
use std::alloc::Global;
use std::io;
use wp_outside::PipeItem;

/// Prints bytes in hexadecimal, behind words.
pub fn show_bytes<R: Print>(rt: &R, alloc: Global, words: &str, bytes: &[u8]) -> io::Result<()> {
    if bytes.is_empty() {
        return println!(rt; "{words} nothing");
    }
    match hex::encode(alloc, bytes) {
        Ok(digits) => println!(rt; "{words} {}", digits.as_str()),
        Err(_) => println!(rt; "{words}: no memory"),
    }
}

/// Prints what is to be written next.
pub fn show_front<R: Print>(
    rt: &R,
    alloc: Global,
    name: &str,
    trail: &mut Trail,
) -> io::Result<()> {
    print!(rt; "{name} ")?;
    match trail.make_room() {
        Ok(()) => show_bytes(rt, alloc, "front", trail.lent()),
        Err(fault) => println!(rt; "front: {fault:?}"),
    }
}

/// Prints all items that its peer is given.
pub fn show_items<R: Print>(
    rt: &R,
    alloc: Global,
    name: &str,
    trail: &mut Trail,
) -> io::Result<()> {
    for _ in 0..u64::MAX {
        match trail.peer_out() {
            Some(item) => {
                print!(rt; "{name} gives ")?;
                show_item(rt, alloc, &item)?;
            }
            None => break,
        }
    }
    Ok(())
}

fn show_item<R: Print>(rt: &R, alloc: Global, item: &PeerOut) -> io::Result<()> {
    match item {
        PeerOut::Bytes(message) => show_bytes(rt, alloc, "message", message.as_slice()),
        PeerOut::Handle(handle) => println!(rt; "handle {}", handle.number),
        PeerOut::Opened { rid, size } => println!(rt; "opened {rid} size {size}"),
        PeerOut::Grown { rid, size } => println!(rt; "grown {rid} size {size}"),
        PeerOut::Filled { rid, start, bytes } => {
            print!(rt; "filled {rid} from {start} ")?;
            show_bytes(rt, alloc, "with", bytes.as_slice())
        }
        PeerOut::Pipe(item) => show_pipe(rt, alloc, item),
        PeerOut::Receipt {
            number,
            segment,
            ..
        } => println!(rt; "receipt {number} segment {segment}"),
    }
}

fn show_pipe<R: Print>(rt: &R, alloc: Global, item: &PipeItem) -> io::Result<()> {
    match item {
        PipeItem::Bytes { pipe, bytes } => {
            print!(rt; "pipe {pipe} ")?;
            show_bytes(rt, alloc, "bytes", bytes.as_slice())
        }
        PipeItem::End { pipe } => println!(rt; "pipe {pipe} ended"),
        PipeItem::Shut { pipe } => println!(rt; "pipe {pipe} shut"),
    }
}

/// Prints the counts of its record.
pub fn show_counts<R: Print>(rt: &R, name: &str, trail: &Trail) -> io::Result<()> {
    let record = trail.record();
    println!(rt;
        "{name} taken {} made {} copies {} accepted {} acknowledged {} given {} passed {} \
        weight {}",
        record.taken.len(),
        record.made.len(),
        record.copies.len(),
        trail.accepted(),
        trail.acknowledged(),
        record.given,
        trail.order().len(),
        trail.weight()
    )
}

/// Prints how many bytes it wrote and read on each connection.
pub fn show_lines<R: Print>(rt: &R, name: &str, trail: &Trail) -> io::Result<()> {
    for line in trail.record().lines.as_slice() {
        println!(rt;
            "{name} line {} written {} read {}",
            line.connection,
            line.written.len(),
            line.read.len()
        )?;
    }
    Ok(())
}

/// Prints whether it takes from its peer, has heard CLOSE, and has ended well.
pub fn show_ends<R: Print>(rt: &R, name: &str, trail: &Trail) -> io::Result<()> {
    let (wants, heard, ended) = (trail.wants_peer(), trail.heard_close(), trail.ended());
    println!(rt; "{name} wants {wants} heard {heard} ended {ended}")
}

/// Prints whether both records agree, or the first difference.
pub fn show_audit<R: Print>(rt: &R, near: &Trail, far: &Trail) -> io::Result<()> {
    match audit(near, far) {
        Ok(_) => println!(rt; "agreed"),
        Err(differs) => println!(rt; "{differs:?}"),
    }
}

/// Prints a report.
pub fn show_report<R: Print>(
    rt: &R,
    alloc: Global,
    options: ReportOptions,
    pair: &PairRecord,
) -> io::Result<()> {
    match report(alloc, options, pair) {
        Ok(text) => match str::from_utf8(text.as_slice()) {
            Ok(text) => print!(rt; "{text}"),
            Err(_) => println!(rt; "no text"),
        },
        Err(_) => println!(rt; "no memory"),
    }
}
