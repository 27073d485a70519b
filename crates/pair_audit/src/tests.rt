//! What two sides kept of their connections, and the first difference, by the rows of a table.

ghost use Rattle.std.specs.Prelude.{IsTrue, map};
ghost use Rattle.pair_model.specs.Lines.{Rising};
ghost use Rattle.trail_records.specs.Rows.{line_of};

use super::*;
use std::alloc::Global;
use std::test::*;
use trail_records::{Book, LineRecord, Unrecorded};
use wp_outside::{Direction, Side};

// What a side kept of one connection: its number, what was written and what was read.
type Kept = (u32, &'static [u8], &'static [u8]);

// What both sides kept, near and far, and the answer.
type Row = (
    &'static str,
    &'static [Kept],
    &'static [Kept],
    Result<(), Differs>,
);

const ROWS: [Row; 6] = [
    ("no connection", &[], &[], Ok(())),
    (
        "all was read, or less",
        &[(1, b"abc", b"xy"), (2, b"de", b"z")],
        &[(1, b"xy", b"abc"), (2, b"zzz", b"")],
        Ok(()),
    ),
    (
        "another byte, up before down",
        &[(1, b"abc", b"xq")],
        &[(1, b"xy", b"aqq")],
        Err(Differs {
            connection: 1,
            direction: Direction::Up,
            place: 1,
            wrote: Some(b'b'),
            read: b'q',
        }),
    ),
    (
        "a byte more on a later connection, at its own place, down",
        &[(1, b"abc", b"xy"), (3, b"", b"zzq")],
        &[(1, b"xy", b"abc"), (3, b"zz", b"")],
        Err(Differs {
            connection: 3,
            direction: Direction::Down,
            place: 2,
            wrote: None,
            read: b'q',
        }),
    ),
    (
        "a line that the far side lacks",
        &[(1, b"abc", b""), (2, b"de", b"x")],
        &[(3, b"", b"q")],
        Err(Differs {
            connection: 2,
            direction: Direction::Down,
            place: 0,
            wrote: None,
            read: b'x',
        }),
    ),
    (
        "a line that the near side lacks",
        &[(1, b"abc", b""), (4, b"", b"x")],
        &[(2, b"zz", b""), (3, b"", b"q")],
        Err(Differs {
            connection: 3,
            direction: Direction::Up,
            place: 0,
            wrote: None,
            read: b'q',
        }),
    ),
];

// Adds a line.
fn add(book: &mut Book, connection: u32, written: &[u8], read: &[u8]) -> Result<(), Unrecorded> {
    book.close_room();
    book.add_line(connection)?;
    book.add_read(read)?;
    book.make_room(written.len())?;
    if book.record().lines.len() > 0 {
        book.add_written(written);
    }
    Ok(())
}

// The records of a side that kept these lines, and nothing else.
fn book_of(alloc: Global, side: Side, lines: &[Kept]) -> Result<Book, Unrecorded> {
    let mut book = Book::new(alloc, side);
    for (connection, written, read) in lines {
        add(&mut book, *connection, written, read)?;
    }
    Ok(book)
}

// Whether the numbers of the lines rise from the least one on. They are small in these tests.
fn rises(least: u32, rows: &[LineRecord]) -> bool
    ensures { IsTrue result → Rising least (map line_of rows.now) }
{
    match rows {
        [] => true,
        [line, rest @ ..] => {
            least <= line.connection && line.connection < 1000 && rises(line.connection + 1, rest)
        }
    }
}

// The answer where the numbers of both sides rise.
fn audit_books(near: &Book, far: &Book) -> Option<Result<(), Differs>> {
    let near = &near.record().lines;
    let far = &far.record().lines;
    if rises(1, near.as_slice()) && rises(1, far.as_slice()) {
        Some(audit_lines(near, far))
    } else {
        None
    }
}

#[test]
fn first_difference_is_told(rt: HostRuntime) -> Result<(), Fail> {
    for (what, near, far, wanted) in ROWS {
        let near = book_of(rt.alloc(), Side::Near, near)?;
        let far = book_of(rt.alloc(), Side::Far, far)?;
        assert_eq!(rt; audit_books(&near, &far), Some(wanted), "{what}");
    }
    Ok(())
}
