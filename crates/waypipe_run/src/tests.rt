//! The call as the program makes it, over sources, sinks and a link in memory.
mod ends;
mod handles;
mod listings;
mod pictures;
mod refusals;
mod rows;

use crate::plain::run_plain;
use crate::status::Status;
use std::alloc::{AllocError, Global};
use wp_outside::{LineStore, MemorySink, MemorySource};

/// A line by which the application hears of globals.
const REGISTRY: &str = "app wl_display@1.get_registry(new @2)\n";

/// The line for words that are no command.
const USAGE: &str =
    "usage: waypipe replay [--text] [--long] or frames or trial N or session [--workers N] [--link memory or tcp] [--text] [--long]";

/// A row: its name, the words, the parts of the input, the status, and lines that the text has, in
/// this order, the last one at its end.
#[derive(Clone, Copy)]
struct Row {
    name: &'static str,
    words: &'static str,
    input: &'static [&'static str],
    status: Status,
    wanted: &'static [&'static str],
}

/// The first of these rows that is not answered as it says, and what is wrong with it.
fn first_wrong(
    alloc: Global,
    rows: &[Row],
) -> Result<Option<(&'static str, &'static str)>, AllocError> {
    for row in rows {
        let input = joined(alloc, row.input)?;
        let (status, text) = answered(alloc, row.words, input.as_slice())?;
        if status != row.status {
            return Ok(Some((row.name, "the status")));
        }
        if let Some(line) = first_missing(text.as_slice(), row.wanted) {
            return Ok(Some((row.name, line)));
        }
    }
    Ok(None)
}

/// What a run over an input answers and writes, where the sink has so many places and the calls of
/// these numbers fail.
fn run(
    alloc: Global,
    words: &[String],
    input: Vec<u8>,
    places: usize,
    reads: Vec<u32>,
    writes: Vec<u32>,
) -> Result<(Status, Vec<u8>), AllocError> {
    let mut source = MemorySource::new(input, reads);
    let mut sink = MemorySink::new(vec![in alloc; 0u8; places]?, writes);
    let mut line = LineStore::new(alloc);
    let status = run_plain(alloc, words, &mut source, &mut sink, &mut line);
    Ok((status, Vec::from_slice(alloc, sink.held())?))
}

/// The words of a command line, which single spaces part.
fn words_of(alloc: Global, line: &str) -> Result<Vec<String>, AllocError> {
    let mut words = Vec::new(alloc);
    for word in line.split_whitespace() {
        words.push(String::from_str(alloc, word)?)?;
    }
    Ok(words)
}

/// What a command answers and writes with ample places, where no call fails.
fn answered(alloc: Global, command: &str, input: &[u8]) -> Result<(Status, Vec<u8>), AllocError> {
    let words = words_of(alloc, command)?;
    run(
        alloc,
        words.as_slice(),
        Vec::from_slice(alloc, input)?,
        300_000,
        Vec::new(alloc),
        Vec::new(alloc),
    )
}

/// Texts one behind another.
fn joined(alloc: Global, texts: &[&str]) -> Result<Vec<u8>, AllocError> {
    let mut all = Vec::new(alloc);
    for text in texts {
        all.extend_from_slice(text.as_bytes())?;
    }
    Ok(all)
}

/// The first of these lines that a text doesn't have behind those before it; the last one stands
/// last in the text.
fn first_missing<'a>(text: &[u8], wanted: &[&'a str]) -> Option<&'a str> {
    let mut rest = text;
    for line in wanted {
        match behind_line(rest, line.as_bytes()) {
            Some(behind) => rest = behind,
            None => return Some(*line),
        }
    }
    if rest.is_empty() {
        None
    } else {
        Some("the end")
    }
}

/// What stands behind the first line of a text that is this one.
fn behind_line<'a>(text: &'a [u8], line: &[u8]) -> Option<&'a [u8]> {
    let mut rest = text;
    for _ in 0..text.len() {
        let end = rest.iter().position(|byte| *byte == b'\n')?;
        let (found, behind) = rest.split_at(end);
        let (_, behind) = behind.split_at(1);
        if found == line {
            return Some(behind);
        }
        rest = behind;
    }
    None
}
