//! What one line of the input asks for.

ghost use Rattle.std.specs.Prelude.{◌≤◌, ◌↔◌, IsTrue};

use crate::commits::{Scatter, Sides, runs_of_commits, runs_of_scatter};
use crate::copies::{count_by_all, sum_by_one, sum_of_atomics};
use crate::crews::count_by_crew;
use crate::link_frames::{bytes_in_ring, frames_accepted};
use crate::mirrors::sum_of_fills;
use crate::pipes::bytes_through;
use crate::rids::{Choice, count_of_rids};
use crate::words::{count_of_writes, sum_of_copies, sum_of_loads};
use std::alloc::{AllocError, Global};
use std::sync::Wait;
use std::thread::Threads;

// The greatest count of words of a pool.
const MOST_WORDS: u32 = 8_388_608;

/// Work to be done so many times.
#[derive(Clone, Copy, Debug, PartialEq, Eq)]
pub enum Job {
    /// Commits of a surface whose buffer has these sides in pixels.
    Commits { image: Sides, times: u32 },
    /// One commit with many rectangles of damage.
    Scatter(Scatter),
    /// Tables of the other side's handles.
    Rids { choice: Choice, times: u32 },
    /// Work on all words of a pool.
    Words { way: Way, words: u32, times: u32 },
    /// Fills of a mirror of so many bytes.
    Fills { bytes: u32, times: u32 },
    /// Pieces of so many bytes through a pipe.
    Pieces { bytes: u32, times: u32 },
    /// Frames of so many bytes in a ring.
    Kept { bytes: u32, times: u32 },
    /// Frames that are judged, so many on each of so many connections.
    Judged { frames: u32, times: u32 },
}

/// What is done with words.
#[derive(Clone, Copy, Debug, PartialEq, Eq)]
pub enum Way {
    /// Loads of a pool's words.
    Loads,
    /// Writes of a pool's words.
    Writes,
    /// Plain copies of as many words.
    Copies,
    /// Loads of as many atomic words by a plain loop.
    Atomics,
    /// Copies of a pool's words by jobs, on one thread.
    One,
    /// Copies of a pool's words by jobs, in several threads that come back in order.
    All,
    /// Copies of a pool's words by a crew of one worker.
    CrewOfOne,
    /// Copies of a pool's words by a crew of two workers.
    CrewOfTwo,
    /// Copies of a pool's words by a crew of four workers.
    CrewOfFour,
}

impl Job {
    /// The job of a line, or None where it names none.
    pub fn read(line: &str) -> Option<Job> {
        let mut fields = line.split_whitespace();
        let name = fields.next()?;
        let first = number(fields.next()?)?;
        let second = number(fields.next()?)?;
        let image = Sides {
            width: first,
            height: second,
        };
        match name {
            "commits" => Some(Job::Commits {
                image,
                times: number(fields.next()?)?,
            }),
            "scatter" => Some(Job::Scatter(Scatter {
                image,
                rect: Sides {
                    width: number(fields.next()?)?,
                    height: number(fields.next()?)?,
                },
                count: number(fields.next()?)?,
            })),
            "rids" => Some(Job::Rids {
                choice: Choice {
                    count: first,
                    bits: second,
                },
                times: number(fields.next()?)?,
            }),
            _ => Job::repeated(name, first, second),
        }
    }

    // The job of this name, on so much each time.
    fn repeated(name: &str, size: u32, times: u32) -> Option<Job> {
        match name {
            "fills" => Some(Job::Fills { bytes: size, times }),
            "pieces" => Some(Job::Pieces { bytes: size, times }),
            "kept" => Some(Job::Kept { bytes: size, times }),
            "judged" => Some(Job::Judged {
                frames: size,
                times,
            }),
            _ => Some(Job::Words {
                way: Way::read(name)?,
                words: size,
                times,
            }),
        }
    }

    /// Does the work, and answers a sum over what came out; 0 where a size is none that the part
    /// takes.
    pub fn sum<R: Threads + Wait + Sync>(self, rt: &R, alloc: Global) -> Result<u64, AllocError> {
        match self {
            Job::Commits { image, times } => runs_of_commits(alloc, image, times),
            Job::Scatter(scatter) => runs_of_scatter(alloc, scatter),
            Job::Rids { choice, times } => count_of_rids(alloc, choice, times),
            Job::Words { way, words, times } => {
                if is_pool(words) {
                    way.sum(rt, alloc, words, times)
                } else {
                    Ok(0)
                }
            }
            Job::Fills { bytes, times } => sum_of_fills(alloc, bytes, times),
            Job::Pieces { bytes, times } => bytes_through(alloc, bytes, times),
            Job::Kept { bytes, times } => bytes_in_ring(alloc, bytes, times),
            Job::Judged { frames, times } => frames_accepted(alloc, frames, times),
        }
    }
}

impl Way {
    // The way with this name, or None where no way has it.
    fn read(name: &str) -> Option<Way> {
        match name {
            "loads" => Some(Way::Loads),
            "writes" => Some(Way::Writes),
            "copies" => Some(Way::Copies),
            "atomics" => Some(Way::Atomics),
            "one" => Some(Way::One),
            "all" => Some(Way::All),
            "crew-1" => Some(Way::CrewOfOne),
            "crew-2" => Some(Way::CrewOfTwo),
            "crew-4" => Some(Way::CrewOfFour),
            _ => None,
        }
    }

    // Does the work on so many words.
    fn sum<R: Threads + Wait + Sync>(
        self,
        rt: &R,
        alloc: Global,
        words: u32,
        times: u32,
    ) -> Result<u64, AllocError>
        requires { (1 ≤ words) × (words ≤ 8388608) }
    {
        match self {
            Way::Loads => sum_of_loads(alloc, words, times),
            Way::Writes => count_of_writes(alloc, words, times),
            Way::Copies => sum_of_copies(alloc, words, times),
            Way::Atomics => sum_of_atomics(alloc, words, times),
            Way::One => sum_by_one(alloc, words, times),
            Way::All => count_by_all(rt, alloc, words, times),
            Way::CrewOfOne => count_by_crew(rt, alloc, 1, words, times),
            Way::CrewOfTwo => count_by_crew(rt, alloc, 2, words, times),
            Way::CrewOfFour => count_by_crew(rt, alloc, 4, words, times),
        }
    }
}

// The number that a field names.
fn number(field: &str) -> Option<u32> {
    field.parse().ok()
}

// Whether a pool may have so many words.
fn is_pool(words: u32) -> bool
    ensures { IsTrue result ↔ ((1 ≤ words) × (words ≤ 8388608)) }
{
    words >= 1 && words <= MOST_WORDS
}
