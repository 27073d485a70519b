//! A whole record, written out.

use crate::looks::show_bytes;
use half_model::CopyRecord;
use proxy_trail::{LineRecord, Trail, TrailRecord};
use std::alloc::Global;
use std::io;
use transfer_frames::{Frame, frame_line};
use wl_tables::Way;

/// Prints all that a record keeps.
pub fn show_record<R: Print>(rt: &R, alloc: Global, name: &str, trail: &Trail) -> io::Result<()> {
    let record = trail.record();
    println!(rt;
        "{name} record of {:?} accepted {} acknowledged {} given {} weight {}",
        record.side,
        record.accepted,
        record.acknowledged,
        record.given,
        trail.weight()
    )?;
    show_taken(rt, alloc, record)?;
    show_made(rt, alloc, record)?;
    for copy in record.copies.as_slice() {
        show_copy(rt, copy)?;
    }
    for line in record.lines.as_slice() {
        show_line(rt, alloc, line)?;
    }
    show_order(rt, trail.order())
}

fn show_taken<R: Print>(rt: &R, alloc: Global, record: &TrailRecord) -> io::Result<()> {
    for message in record.taken.as_slice() {
        show_bytes(rt, alloc, "taken", message.bytes())?;
    }
    Ok(())
}

fn show_made<R: Print>(rt: &R, alloc: Global, record: &TrailRecord) -> io::Result<()> {
    let mut index: u64 = 0;
    for frame in record.made.as_slice() {
        show_frame(rt, alloc, index, frame)?;
        index = index.wrapping_add(1);
    }
    Ok(())
}

fn show_frame<R: Print>(rt: &R, alloc: Global, index: u64, frame: &Frame) -> io::Result<()> {
    match frame_line(alloc, index, frame) {
        Ok(line) => match str::from_utf8(line.as_slice()) {
            Ok(text) => println!(rt; "made {text}"),
            Err(_) => println!(rt; "made: no text"),
        },
        Err(_) => println!(rt; "made: no memory"),
    }
}

fn show_copy<R: Print>(rt: &R, copy: &CopyRecord) -> io::Result<()> {
    println!(rt;
        "copy of file {} segment {} from {} low {} high {} words {:?}",
        copy.file,
        copy.segment,
        copy.first,
        copy.low,
        copy.high,
        copy.words.as_slice()
    )
}

fn show_line<R: Print>(rt: &R, alloc: Global, line: &LineRecord) -> io::Result<()> {
    print!(rt; "line {} ", line.connection)?;
    show_bytes(rt, alloc, "written", line.written.as_slice())?;
    print!(rt; "line {} ", line.connection)?;
    show_bytes(rt, alloc, "read", line.read.as_slice())
}

fn show_order<R: Print>(rt: &R, order: &[Way]) -> io::Result<()> {
    print!(rt; "order")?;
    for way in order {
        print!(rt; " {way:?}")?;
    }
    println!(rt; "")
}
