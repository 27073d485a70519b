//! Sources and sinks over the standard library's readers and writers. No clause can say which bytes
//! those give and take, so these tell no content.

ghost use Rattle.std.specs.Prelude.{◌≡◌, ◌≤◌, None, IfSome, length};

use crate::sinks::{Failed, Sink};
use crate::sources::{Source, Taken};
use std::io::{ErrorKind, Read, Write};
use std::marker::Model;

/// How often a read or a write that a signal interrupted is tried in all.
const TRIES: u32 = 16;

/// A source over a reader.
#[derive(Drop)]
pub struct StdSource<R: Read> {
    reader: R,
    faults: u64,
}

impl<R: Read> Model for StdSource<R> {
    ghost use Rattle.std.specs.Prelude.{ℕ};

    ghost Value = { ℕ };

    ghost view = { λ s. s.faults };
}

impl<R: Read> StdSource<R> {
    /// A source of what the reader gives.
    pub fn new(reader: R) -> StdSource<R>
        ensures { result ≡ 0 }
    {
        StdSource { reader, faults: 0 }
    }
}

impl<R: Read> Source for StdSource<R> {
    ghost left = { λ _. None };

    ghost faults = { λ faults. faults };

    /// Reads once, and again where a signal interrupted that; an error of the reader is a failure.
    fn read(&mut self, buf: &mut [u8]) -> Taken {
        match read_some(&mut self.reader, buf) {
            Some(0) => Taken::End,
            Some(count) => Taken::Bytes(count),
            None => {
                self.faults = self.faults.saturating_add(1);
                Taken::Failed
            }
        }
    }
}

/// A sink over a writer.
#[derive(Drop)]
pub struct StdSink<W: Write> {
    writer: W,
    faults: u64,
}

impl<W: Write> Model for StdSink<W> {
    ghost use Rattle.std.specs.Prelude.{ℕ};

    ghost Value = { ℕ };

    ghost view = { λ s. s.faults };
}

impl<W: Write> StdSink<W> {
    /// A sink into the writer.
    pub fn new(writer: W) -> StdSink<W>
        ensures { result ≡ 0 }
    {
        StdSink { writer, faults: 0 }
    }
}

impl<W: Write> Sink for StdSink<W> {
    ghost held = { λ _. None };

    ghost faults = { λ faults. faults };

    /// Writes once, and again where a signal interrupted that; an error of the writer is a failure,
    /// and so is a write that takes nothing.
    fn write(&mut self, bytes: &[u8]) -> Result<usize, Failed> {
        match write_some(&mut self.writer, bytes) {
            None | Some(0) => {
                self.faults = self.faults.saturating_add(1);
                Err(Failed)
            }
            Some(count) => Ok(count),
        }
    }
}

/// Reads, again and again where that was interrupted; an error is None.
fn read_some<R: Read>(reader: &mut R, buf: &mut [u8]) -> Option<usize>
    ensures { IfSome result (λ n. n ≤ length buf.old) }
{
    for _ in 0..TRIES {
        match reader.read(buf) {
            Ok(count) => return Some(count),
            Err(error) if error.kind() == ErrorKind::Interrupted => {}
            Err(_) => return None,
        }
    }
    None
}

/// Writes, again and again where that was interrupted; an error is None.
fn write_some<W: Write>(writer: &mut W, bytes: &[u8]) -> Option<usize>
    ensures { IfSome result (λ n. n ≤ length bytes.now) }
{
    for _ in 0..TRIES {
        match writer.write(bytes) {
            Ok(count) => return Some(count),
            Err(error) if error.kind() == ErrorKind::Interrupted => {}
            Err(_) => return None,
        }
    }
    None
}
