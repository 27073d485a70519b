//! What one proxy does, or shows.

use crate::calls::{
    close, connect, copy_all, end_pipe, hand, hand_back, note, read_pieces, read_words, say,
    say_words, shut_pipe, write_pipe,
};
use crate::edges::weigh;
use crate::image::Image;
use crate::links::lose;
use crate::looks::{show_counts, show_ends, show_front, show_items, show_lines};
use crate::records::show_record;
use crate::steps::Act;
use crate::trouble::Trouble;
use crate::words::{bytes_of, message_of};
use copy_workers::{CopyDone, copy_one};
use proxy_trail::Trail;
use std::alloc::Global;
use std::io;
use wl_tables::Way;

/// The proxy beside the application does something, or shows itself.
pub fn act_near<R: Print>(
    rt: &R,
    alloc: Global,
    near: &mut Trail,
    image: &mut Image,
    line: &str,
    act: Act<'_>,
) -> io::Result<()> {
    match act {
        Act::Tell(text) => told(rt, line, tell(alloc, near, Way::Request, text)),
        act => play_act(rt, alloc, "near", near, image, line, act),
    }
}

/// The proxy beside the compositor does something, or shows itself.
pub fn act_far<R: Print>(
    rt: &R,
    alloc: Global,
    far: &mut Trail,
    image: &mut Image,
    line: &str,
    act: Act<'_>,
) -> io::Result<()> {
    match act {
        Act::Tell(text) => told(rt, line, tell(alloc, far, Way::Event, text)),
        act => play_act(rt, alloc, "far", far, image, line, act),
    }
}

/// Tells why a line was not done.
pub fn told<R: Print>(rt: &R, line: &str, answer: Result<(), Trouble>) -> io::Result<()> {
    match answer {
        Ok(()) => Ok(()),
        Err(Trouble::Fault(fault)) => println!(rt; "{line}: {fault:?}"),
        Err(trouble) => println!(rt; "{line}: {trouble:?}"),
    }
}

fn play_act<R: Print>(
    rt: &R,
    alloc: Global,
    name: &str,
    trail: &mut Trail,
    image: &mut Image,
    line: &str,
    act: Act<'_>,
) -> io::Result<()> {
    match act {
        Act::Front => show_front(rt, alloc, name, trail),
        Act::Gives => show_items(rt, alloc, name, trail),
        Act::Show => show_counts(rt, name, trail),
        Act::Lines => show_lines(rt, name, trail),
        Act::Ends => show_ends(rt, name, trail),
        Act::Record => show_record(rt, alloc, name, trail),
        act => told(rt, line, do_act(alloc, trail, image, act)),
    }
}

fn do_act(
    alloc: Global,
    trail: &mut Trail,
    image: &mut Image,
    act: Act<'_>,
) -> Result<(), Trouble> {
    match act {
        Act::Say(times, words) => say_words(alloc, trail, times, words),
        Act::Hand(number, kind) => hand(trail, number, kind),
        Act::Write(pipe, words) => write_pipe(trail, pipe, bytes_of(alloc, 1, words)?),
        Act::End(pipe) => end_pipe(trail, pipe),
        Act::Shut(pipe) => shut_pipe(trail, pipe),
        Act::Note => note_image(alloc, trail, image),
        Act::Copies => copy_all(trail),
        Act::Late(text) => copy_late(alloc, trail, text),
        Act::Close(reason) => close(trail, reason),
        Act::Connect(connection) => connect(trail, connection),
        Act::Break => {
            trail.link_down();
            Ok(())
        }
        Act::Read(words) => read_words(alloc, trail, words),
        Act::Pieces(most, words) => read_pieces(alloc, trail, most, words),
        Act::Lose(most) => lose(alloc, trail, most as usize),
        Act::Weigh(weight) => weigh(alloc, trail, u64::from(weight)),
        _ => Err(Trouble::NoWord),
    }
}

fn tell(alloc: Global, trail: &mut Trail, way: Way, text: &str) -> Result<(), Trouble> {
    say(trail, message_of(alloc, way, text)?)
}

fn note_image(alloc: Global, trail: &mut Trail, image: &mut Image) -> Result<(), Trouble> {
    note(alloc, trail, image.share()?)
}

// The next copy is made, something happens to the proxy, and the copy comes back.
fn copy_late(alloc: Global, trail: &mut Trail, text: &str) -> Result<(), Trouble> {
    match trail.next_copy() {
        Some(job) => come_late(alloc, trail, copy_one(job), text),
        None => Err(Trouble::NotNow),
    }
}

// A fault that the proxy meets meanwhile is what it answers to the copy too.
fn come_late(alloc: Global, trail: &mut Trail, done: CopyDone, text: &str) -> Result<(), Trouble> {
    let _ = meanwhile(alloc, trail, text);
    hand_back(trail, done)
}

fn meanwhile(alloc: Global, trail: &mut Trail, text: &str) -> Result<(), Trouble> {
    match Act::read(text) {
        Some(Act::Close(reason)) => close(trail, reason),
        Some(Act::Read(words)) => read_words(alloc, trail, words),
        _ => Err(Trouble::NoWord),
    }
}
