//! What both sides of a pair do in a test, row by row.

use super::parties::Party;
use super::streams::{Answer, Seen, Stream};
use crate::{Cut, Dial, DialPair, Link, LinkKind, OpenFault};
use std::alloc::{AllocError, Global};
use std::thread;
use std::thread::Threads;

/// How long the longest piece of a test is.
pub const MOST: usize = 2_000_000;

/// What one side does.
#[derive(Clone, Copy)]
pub enum Step {
    /// Nothing.
    Rest,
    /// Dials; whether the other's last word was heard.
    Dial(bool),
    /// Writes a piece of this length once.
    Write(usize),
    /// Reads once into so many bytes.
    Read(usize),
    /// Writes in pieces of this length until so many bytes were taken.
    WriteAll(usize, u64),
    /// Writes them, and hands the line back.
    WriteAllAndBack(usize, u64),
    /// Reads by so many bytes until none comes.
    Gather(usize),
    /// Reads by so many bytes until the line ends.
    ReadAll(usize),
    /// Hands the line back.
    Back,
    /// Dials no more.
    Leave,
    /// Dials no more, after a while.
    LeaveLate,
    /// Dials and hands the line back so often, or until there is none; answers the last number.
    Connections(u32),
}

/// What one side does, what it is to see, and that one's number.
pub type Act = (Step, Answer, u64);

/// What the near side does and what the far one does at the same time.
pub type Row = (Act, Act);

/// Opens a pair and does what the rows say. Answers the first row that saw something else.
pub fn play<R, P, D, K>(
    rt: &R,
    alloc: Global,
    pair: &mut P,
    kind: LinkKind,
    cuts: &[Cut],
    rows: &[Row],
) -> Result<Option<usize>, OpenFault>
where
    R: Threads + Send + Sync,
    P: DialPair<Near = D, Far = D>,
    D: Dial<Line = K> + Drop + Send,
    K: Link + Drop + Send,
{
    let (near, far) = pair.open(kind, cuts)?;
    let (mut near, mut far) = (Party::new(near), Party::new(far));
    let (Ok(mut out), Ok(mut back)) = (buffer(alloc), buffer(alloc)) else {
        return Err(OpenFault::Memory);
    };
    for (index, (near_act, far_act)) in rows.iter().enumerate() {
        let (near_act, far_act) = (*near_act, *far_act);
        let (out, back) = (out.as_mut_slice(), back.as_mut_slice());
        let ((near_then, near_right), (far_then, far_right)) = thread::join(
            rt,
            move || act(near, near_act, out),
            move || act(far, far_act, back),
        );
        (near, far) = (near_then, far_then);
        if !near_right || !far_right {
            return Ok(Some(index));
        }
    }
    pair.close(near.into_dial(), far.into_dial());
    Ok(None)
}

fn buffer(alloc: Global) -> Result<Vec<u8>, AllocError> {
    vec![in alloc; 0u8; MOST]
}

// Does one step, and answers whether it saw what it is to see.
fn act<D, K>(party: Party<D, K>, act: Act, buf: &mut [u8]) -> (Party<D, K>, bool)
where
    D: Dial<Line = K> + Drop,
    K: Link + Drop,
{
    let (step, answer, count) = act;
    let (party, seen) = do_step(party, step, buf);
    (party, seen.0 == answer && seen.1 == count)
}

fn do_step<D, K>(party: Party<D, K>, step: Step, buf: &mut [u8]) -> (Party<D, K>, Seen)
where
    D: Dial<Line = K> + Drop,
    K: Link + Drop,
{
    match step {
        Step::Rest => (party, (Answer::Done, 0)),
        Step::Dial(heard) => party.dial(heard),
        Step::Back => party.back(),
        Step::Leave => party.leave(),
        Step::LeaveLate => {
            for _ in 0..1000 {
                thread::yield_now();
            }
            party.leave()
        }
        Step::Connections(most) => connections(party, most),
        Step::WriteAllAndBack(_, _) => {
            let (party, seen) = on_line(party, step, buf);
            let (party, _) = party.back();
            (party, seen)
        }
        _ => on_line(party, step, buf),
    }
}

// Reads or writes.
fn on_line<D, K>(party: Party<D, K>, step: Step, buf: &mut [u8]) -> (Party<D, K>, Seen)
where
    D: Dial<Line = K> + Drop,
    K: Link + Drop,
{
    match party {
        Party::Connected(holder, mut stream) => {
            let seen = on_stream(&mut stream, step, buf);
            (Party::Connected(holder, stream), seen)
        }
        other => (other, (Answer::Unfit, 0)),
    }
}

fn on_stream<K: Link + Drop>(stream: &mut Stream<K>, step: Step, buf: &mut [u8]) -> Seen {
    let count = match step {
        Step::Write(count) | Step::Read(count) => count,
        Step::ReadAll(count) | Step::Gather(count) => count,
        Step::WriteAll(count, _) | Step::WriteAllAndBack(count, _) => count,
        _ => 0,
    };
    let Some(piece) = buf.get_mut(..count) else {
        return (Answer::Unfit, 0);
    };
    match step {
        Step::Write(_) => stream.write(piece),
        Step::Read(_) => stream.read(piece),
        Step::ReadAll(_) => stream.read_all(piece),
        Step::Gather(_) => stream.gather(piece),
        Step::WriteAll(_, total) | Step::WriteAllAndBack(_, total) => {
            stream.write_all(piece, total)
        }
        _ => (Answer::Unfit, 0),
    }
}

// Dials and hands the line back, and answers the last number, each of which is the next one.
fn connections<D, K>(party: Party<D, K>, most: u32) -> (Party<D, K>, Seen)
where
    D: Dial<Line = K> + Drop,
    K: Link + Drop,
{
    let mut party = party;
    for before in 0..u64::from(most) {
        let (then, (answer, number)) = party.dial(true);
        if answer == Answer::Gone {
            return (then, (Answer::Line, before));
        }
        if answer != Answer::Line || number.checked_sub(1) != Some(before) {
            return (then, (Answer::Unfit, number));
        }
        (party, _) = then.back();
    }
    let (party, _) = party.leave();
    (party, (Answer::Line, u64::from(most)))
}
