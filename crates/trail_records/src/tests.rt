//! Records that grow, weighed as they grow, and what is refused at the limit.

ghost use Rattle.std.specs.Prelude.{IfOk};
ghost use Rattle.transfer_frames.specs.Grammar.{IsFrame};
ghost use Rattle.trail_records.specs.Noting.{IsNote};

use super::*;
use crate::weighing::{with_bytes, with_frames, with_items};
use half_model::{CopyList, CopyRecord, FrameList, Noted, WordList};
use std::alloc::{AllocError, Global};
use std::test::*;
use transfer_frames::Frame;
use wl_wire::{Framer, Message};
use wp_outside::Side;

const LIMIT: u64 = 268_435_456;

// ---- the limit

fn fits_bytes(weight: u64, more: usize) -> bool {
    weight <= LIMIT && with_bytes(weight, more).is_ok()
}

fn fits_items(weight: u64, count: usize) -> bool {
    weight <= LIMIT && with_items(weight, count).is_ok()
}

// A CLOSE, of 8 bytes.
fn close() -> Frame
    ensures { IsFrame result }
{
    Frame::Close { reason: 0 }
}

fn fits_frame(weight: u64) -> bool {
    weight <= LIMIT && with_frames(weight, &[close()]).is_ok()
}

#[test]
fn limit_is_met(rt: HostRuntime) {
    // A message that is taken, a piece that is read, or bytes that are lent.
    assert!(rt; fits_bytes(LIMIT - 12, 12) && !fits_bytes(LIMIT - 11, 12));
    // Connections, or copies.
    assert!(rt; fits_items(LIMIT - 32, 2) && !fits_items(LIMIT - 31, 2));
    // Frames that are made.
    assert!(rt; fits_frame(LIMIT - 8) && !fits_frame(LIMIT - 7));
}

// ---- growing

fn note(book: &mut Book, note: Noted) -> Result<bool, Unrecorded>
    requires { IsNote note }
{
    if book.room() == 0 {
        book.note(note)?;
        return Ok(true);
    }
    Ok(false)
}

fn read(book: &mut Book, piece: &[u8]) -> Result<bool, Unrecorded> {
    if book.room() == 0 && book.record().lines.len() > 0 {
        book.add_read(piece)?;
        return Ok(true);
    }
    Ok(false)
}

fn lend(book: &mut Book, count: usize) -> Result<bool, Unrecorded> {
    book.close_room();
    book.make_room(count)?;
    Ok(true)
}

fn write(book: &mut Book, bytes: &[u8]) -> bool {
    let may = bytes.len() <= book.room() && book.record().lines.len() > 0;
    if may {
        book.add_written(bytes);
    }
    may
}

// wl_display.sync with the new id 2.
fn sync(alloc: Global) -> Option<Message> {
    let mut framer = Framer::new(alloc);
    framer.feed(&[1, 0, 0, 0, 0, 0, 12, 0, 2, 0, 0, 0]).ok()?;
    framer.next_message().ok()?
}

// A CLOSE, and a copy of two words.
fn group(alloc: Global) -> Result<Noted, AllocError>
    ensures { IfOk result IsNote }
{
    let mut frames = FrameList::new(alloc);
    frames.push(close())?;
    let mut copies = CopyList::new(alloc);
    copies.push(CopyRecord {
        file: 1,
        segment: 0,
        first: 0,
        words: WordList::from_slice(alloc, &[3, 4])?,
        low: 0,
        high: 1,
    })?;
    Ok(Noted::Group { frames, copies })
}

// A near side's records: a connection, three bytes read on it and five written, a message taken, two
// received, and a group.
fn some_records(alloc: Global) -> Result<Book, Unrecorded> {
    let mut book = Book::new(alloc, Side::Near);
    book.add_line(7)?;
    read(&mut book, &[1, 2, 3])?;
    if let Some(message) = sync(alloc) {
        note(&mut book, Noted::Taken(message))?;
    }
    note(&mut book, Noted::Received { messages: 2 })?;
    note(&mut book, group(alloc)?)?;
    lend(&mut book, 6)?;
    write(&mut book, &[4, 5, 6, 7, 8]);
    Ok(book)
}

// What a book weighs, and how many messages, frames, copies and ways it has.
fn numbers(book: &Book) -> (u64, usize, usize, usize, usize) {
    let record = book.record();
    (
        book.weight(),
        record.taken.len(),
        record.made.len(),
        record.copies.len(),
        book.order().len(),
    )
}

#[test]
fn records_are_weighed(rt: HostRuntime) -> Result<(), Fail> {
    let book = some_records(rt.alloc())?;
    assert_eq!(rt; numbers(&book), (60, 1, 1, 1, 3));
    for line in book.record().lines.as_slice() {
        assert_eq!(rt; line.connection, 7);
        assert_eq!(rt; line.read.as_slice(), [1, 2, 3].as_slice());
        assert_eq!(rt; line.written.as_slice(), [4, 5, 6, 7, 8].as_slice());
    }
    Ok(())
}

// All that is left of the limit may be lent, and not one byte more.
#[test]
fn refused_is_not_kept(rt: HostRuntime) -> Result<(), Fail> {
    let mut book = some_records(rt.alloc())?;
    let left = (LIMIT - 60) as usize;
    assert_eq!(rt; lend(&mut book, left + 1), Err(Unrecorded::TooHeavy));
    assert_eq!(rt; numbers(&book), (60, 1, 1, 1, 3));
    assert_eq!(rt; lend(&mut book, left), Ok(true));
    assert_eq!(rt; book.room(), left);
    Ok(())
}
