//! Drives two proxies with their records and their peers, back to back, by the rows of its input,
//! and prints what came. A row is a few lines with an empty line behind it, and begins with two new
//! proxies. It is no part of the program.
#![tactic(auto)]

mod acts;
mod calls;
mod cuts;
mod edges;
mod image;
mod links;
mod looks;
mod pairs;
mod peers;
mod records;
mod rows;
mod steps;
mod trouble;
mod words;

use std::io;

fn main(rt: HostRuntime) -> io::Result<()> {
    let text = io::read_to_string(rt.alloc(), rt.reader())?;
    for row in text.as_str().split("\n\n") {
        rows::play(&rt, rt.alloc(), row)?;
    }
    Ok(())
}
