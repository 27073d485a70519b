//! Does the work of one part of the proxies many times over, as each line of its input says, so
//! that a script can measure it. It is no part of the program.
#![tactic(auto)]

mod commits;
mod copies;
mod crews;
mod jobs;
mod link_frames;
mod mirrors;
mod pipes;
mod rids;
mod words;

use jobs::Job;
use std::io;

// What a line may be.
const WANTED: &str =
    "commits WIDTH HEIGHT TIMES, scatter WIDTH HEIGHT ACROSS DOWN COUNT, rids COUNT BITS TIMES, \
    loads, writes, copies, atomics, one, all, crew-1, crew-2 or crew-4 WORDS TIMES, fills, pieces or kept BYTES TIMES, or judged FRAMES TIMES";

fn main(rt: HostRuntime) -> io::Result<()> {
    for line in rt.lines(rt.alloc()) {
        match Job::read(line?.as_str()) {
            Some(job) => {
                let sum = job.sum(&rt, rt.alloc())?;
                println!(rt; "{sum}")?;
            }
            None => println!(rt; "{WANTED}")?,
        }
    }
    Ok(())
}
