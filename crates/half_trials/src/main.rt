//! Drives the two halves of a proxy by their public calls: the lines of its input have work done
//! many times over, so that a script can measure it. It is no part of the program.
#![tactic(auto)]

mod calls;
mod images;
mod jobs;
mod requests;
mod sender;
mod sends;
mod taker;

use jobs::Job;
use std::io;

// What a line may be.
const WANTED: &str = "messages or pictures COUNT TIMES, or images or untaken BYTES TIMES";

fn main(rt: HostRuntime) -> io::Result<()> {
    for line in rt.lines(rt.alloc()) {
        match Job::read(line?.as_str()) {
            Some(job) => {
                let frames = job.frames(rt.alloc())?;
                println!(rt; "{frames}")?;
            }
            None => println!(rt; "{WANTED}")?,
        }
    }
    Ok(())
}
