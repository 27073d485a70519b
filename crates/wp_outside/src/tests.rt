//! Each form is called through its trait, as the crates above do.

ghost use Rattle.std.specs.Prelude.{◌≤◌, IfOk};

use super::*;
use std::alloc::{AllocError, Global};
use std::io;
use std::io::{Read, Write};
use std::test::Fail;

/// What one read answers, and the buffer after it.
fn read_once<S: Source>(source: &mut S) -> (Taken, [u8; 4]) {
    let mut buf = [0u8; 4];
    let taken = source.read(&mut buf);
    (taken, buf)
}

#[test]
fn memory_source(rt: HostRuntime) -> Result<(), Fail> {
    let bytes = vec![in rt.alloc(); 5, 6, 7, 8, 9]?;
    let mut source = MemorySource::new(bytes, vec![in rt.alloc(); 1]?);
    assert_eq!(rt; read_once(&mut source), (Taken::Bytes(4), [5, 6, 7, 8]));
    assert_eq!(rt; read_once(&mut source), (Taken::Failed, [0; 4]));
    assert_eq!(rt; read_once(&mut source), (Taken::Bytes(1), [9, 0, 0, 0]));
    assert_eq!(rt; read_once(&mut source), (Taken::End, [0; 4]));
    Ok(())
}

#[test]
fn clean_source(rt: HostRuntime) -> Result<(), Fail> {
    let mut source = CleanSource::new(vec![in rt.alloc(); 5, 6]?);
    assert_eq!(rt; read_once(&mut source), (Taken::Bytes(2), [5, 6, 0, 0]));
    assert_eq!(rt; read_once(&mut source), (Taken::End, [0; 4]));
    Ok(())
}

fn write_three<K: Sink>(sink: &mut K) -> Result<usize, Failed> {
    sink.write(&[1, 2, 3])
}

#[test]
fn memory_sink(rt: HostRuntime) -> Result<(), Fail> {
    let room = vec![in rt.alloc(); 9; 5]?;
    let mut sink = MemorySink::new(room, vec![in rt.alloc(); 1]?);
    assert_eq!(rt; write_three(&mut sink), Ok(3));
    assert_eq!(rt; write_three(&mut sink), Err(Failed), "a planned failure");
    assert_eq!(rt; sink.held(), [1, 2, 3].as_slice());
    assert_eq!(rt; write_three(&mut sink), Ok(2), "two places are left");
    assert_eq!(rt; write_three(&mut sink), Err(Failed), "no place is left");
    assert_eq!(rt; sink.into_room().as_slice(), [1, 2, 3, 1, 2].as_slice());
    Ok(())
}

/// What two pulls of two bytes answer, and the bytes of both.
fn pull_twice<L: LinkStore>(
    store: &mut L,
    connection: u32,
    dir: Direction,
) -> ([u8; 4], usize, usize) {
    let mut out = [0u8; 4];
    let first = store.pull(connection, dir, &mut out[..2]);
    let second = store.pull(connection, dir, &mut out[2..]);
    (out, first, second)
}

/// A store with connection 1 open, into which 1, 2 and 3 were pushed up.
fn pushed_store(alloc: Global) -> Result<LineStore, AllocError> {
    let mut store = LineStore::new(alloc);
    store.open(1)?;
    store.push(1, Direction::Up, &[1, 2])?;
    store.push(1, Direction::Up, &[3])?;
    Ok(store)
}

#[test]
fn line_store_gives_in_order(rt: HostRuntime) -> Result<(), Fail> {
    let mut store = pushed_store(rt.alloc())?;
    assert_eq!(rt;
        pull_twice(&mut store, 1, Direction::Down),
        ([0, 0, 0, 0], 0, 0)
    );
    assert_eq!(rt;
        pull_twice(&mut store, 2, Direction::Up),
        ([0, 0, 0, 0], 0, 0)
    );
    assert_eq!(rt;
        pull_twice(&mut store, 1, Direction::Up),
        ([1, 2, 3, 0], 2, 1)
    );
    Ok(())
}

#[test]
fn line_store_cuts(rt: HostRuntime) -> Result<(), Fail> {
    let mut store = pushed_store(rt.alloc())?;
    store.cut(1);
    assert_eq!(rt;
        pull_twice(&mut store, 1, Direction::Up),
        ([0, 0, 0, 0], 0, 0)
    );
    Ok(())
}

#[test]
fn line_store_spoils(rt: HostRuntime) -> Result<(), Fail> {
    let mut store = pushed_store(rt.alloc())?;
    assert!(rt; store.spoil(1, Direction::Up, 2, 9));
    assert!(rt; !store.spoil(1, Direction::Up, 3, 9), "three bytes wait");
    assert!(rt; !store.spoil(1, Direction::Down, 0, 9), "no byte waits");
    store.push(1, Direction::Up, &[4])?;
    assert!(rt;
        store.spoil(1, Direction::Up, 1, 8),
        "a byte is spoiled already"
    );
    assert_eq!(rt;
        pull_twice(&mut store, 1, Direction::Up),
        ([1, 8, 9, 4], 2, 2)
    );
    Ok(())
}

/// A reader and writer that is interrupted, moves one byte, fails, and then moves nothing.
#[derive(Drop)]
struct Flaky {
    calls: u8,
}

impl Flaky {
    fn next(&mut self) -> io::Result<usize>
        ensures { IfOk result (λ n. n ≤ 1) }
    {
        self.calls = self.calls.saturating_add(1);
        match self.calls {
            1 => Err(io::Error::from(io::ErrorKind::Interrupted)),
            2 => Ok(1),
            3 => Err(io::Error::from(io::ErrorKind::BrokenPipe)),
            _ => Ok(0),
        }
    }
}

impl Read for Flaky {
    fn read(&mut self, buf: &mut [u8]) -> io::Result<usize> {
        let count = self.next()?;
        Ok(count.min(buf.len()))
    }
}

impl Write for Flaky {
    fn write(&mut self, buf: &[u8]) -> io::Result<usize> {
        let count = self.next()?;
        Ok(count.min(buf.len()))
    }

    fn flush(&mut self) -> io::Result<()> {
        Ok(())
    }
}

#[test]
fn std_source(rt: HostRuntime) {
    let mut flaky = StdSource::new(Flaky { calls: 0 });
    assert_eq!(rt;
        read_once(&mut flaky).0,
        Taken::Bytes(1),
        "read again after an interruption"
    );
    assert_eq!(rt; read_once(&mut flaky).0, Taken::Failed);
    assert_eq!(rt; read_once(&mut flaky).0, Taken::End);
    let mut bytes = StdSource::new([5u8, 6].as_slice());
    assert_eq!(rt; read_once(&mut bytes), (Taken::Bytes(2), [5, 6, 0, 0]));
    assert_eq!(rt; read_once(&mut bytes), (Taken::End, [0; 4]));
}

#[test]
fn std_sink(rt: HostRuntime) {
    let mut flaky = StdSink::new(Flaky { calls: 0 });
    assert_eq!(rt;
        write_three(&mut flaky),
        Ok(1),
        "written again after an interruption"
    );
    assert_eq!(rt; write_three(&mut flaky), Err(Failed));
    assert_eq!(rt;
        write_three(&mut flaky),
        Err(Failed),
        "a writer that takes nothing"
    );
    let mut held = Vec::new(rt.alloc());
    let mut sink = StdSink::new(&mut held);
    assert_eq!(rt; write_three(&mut sink), Ok(3));
    drop(sink);
    assert_eq!(rt; held.as_slice(), [1, 2, 3].as_slice());
}
