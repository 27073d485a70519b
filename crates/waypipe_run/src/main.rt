//! A pair of Wayland proxies beside each other: the program replays a script of what an application
//! and a compositor put on their wires and of how bytes move between the proxies, and reports what
//! came of it.
#![tactic(auto)]

mod answers;
mod built;
mod endings;
mod laws;
mod listings;
mod names;
mod plain;
mod reading;
mod replies;
mod scripts;
mod status;
#[cfg(test)]
mod tests;
mod texts;
mod words;
mod writing;

use plain::run_plain;
use status::Status;
use std::alloc::{AllocError, Global};
use std::process::ExitCode;
use std::{env, io};
use wp_outside::{LineStore, StdSink, StdSource};

/// The largest block that the C library's allocator takes from the system alone, less a page.
const LARGEST_BLOCK: usize = 33_550_336;

fn main(rt: HostRuntime) -> ExitCode {
    keep_freed_memory(rt.alloc());
    let status = match words_of(&rt) {
        Some(words) => {
            let mut input = StdSource::new(rt.stdin());
            let mut output = StdSink::new(rt.stdout());
            let mut line = LineStore::new(rt.alloc());
            run_plain(
                rt.alloc(),
                words.as_slice(),
                &mut input,
                &mut output,
                &mut line,
            )
        }
        None => Status::Memory,
    };
    ExitCode::from(status.code())
}

/// Takes a large block and lets it go. From then on the C library's allocator keeps what is let go and
/// gives it out again, where before it took each block of 128 KiB or more from the system, page by
/// page and filled with zeros, and gave it back. The frames of pictures are such blocks.
fn keep_freed_memory(alloc: Global) {
    let _block: Result<Vec<u8>, AllocError> = Vec::with_capacity(alloc, LARGEST_BLOCK);
}

/// The words after the program's name, or none where memory runs out. Words of which one is no
/// UTF-8 are no command, as no words are.
fn words_of(rt: &HostRuntime) -> Option<Vec<String>> {
    match env::args(rt) {
        Ok(mut args) => {
            let _program = args.next();
            args.collect(rt.alloc()).ok()
        }
        Err(error) if error.kind() == io::ErrorKind::OutOfMemory => None,
        Err(_) => Some(Vec::new(rt.alloc())),
    }
}
