//! What scripts put on the wire of one peer, and how it leaves.

use super::*;
use half_model::{PeerIn, PeerOut};
use script_lang::{Script, Step, StepKind, read_script};
use shm_pools::Note;
use std::alloc::{AllocError, Global};
use std::test::*;
use wl_wire::Bytes;
use wp_outside::{HandleKind, PipeItem, Side};

/// An item in short: what it is, and how many bytes or eyes it has, or which number.
type Told = (char, i32);

/// A script, whose peer it is about, and the items that its `take` lines give that peer's proxy.
type Row = (Side, &'static [u8], &'static [Told]);

const ROWS: [Row; 7] = [
    // A piece of bytes is cut where so many are spent, and what is left stays at the front.
    (
        Side::Near,
        b"app hex 0102030405\napp hex 06\ntake app 2\ntake app 1\ntake app 9",
        &[('b', 2), ('b', 1), ('b', 2), ('b', 1)],
    ),
    // Another peer's lines do nothing.
    (
        Side::Near,
        b"comp hex 01\ncomp pipe -1\ncomp give -1\ntake app 9",
        &[],
    ),
    // What costs nothing waits too, once all bytes are spent.
    (
        Side::Near,
        b"app file 1 64\napp hex 01\napp give 1\ntake app 1\napp hex 02\ntake app 1",
        &[('b', 1), ('f', 1), ('b', 1)],
    ),
    // The handle of a message stands before its bytes.
    (
        Side::Near,
        b"app file 1 64\napp wl_shm@4.create_pool(new @6, fd %1, 64)\ntake app 100",
        &[('f', 1), ('b', 16)],
    ),
    // A note of the three segments of two files stands before a commit, and none before another
    // message.
    (
        Side::Near,
        b"app file 1 64\napp grow 1 128\napp file 2 64\napp wl_surface@5.commit()\n\
          app wl_surface@5.attach(@7, 0, 0)\ntake app 100",
        &[('n', 3), ('b', 8), ('b', 20)],
    ),
    // A note, the handle and the bytes of a keymap.
    (
        Side::Far,
        b"comp file -1 64\ncomp wl_keyboard@4.keymap(1, fd %-1, 60)\ntake comp 100",
        &[('n', 1), ('f', -1), ('b', 16)],
    ),
    // What is done to pipes.
    (
        Side::Near,
        b"app pipe 1\napp give 1\napp put -3 6869\napp end -3\napp shut 1\ntake app 1",
        &[('p', 1), ('w', 2), ('e', -3), ('s', 1)],
    ),
];

/// How many there are, of few.
fn count(many: usize) -> i32 {
    many.min(1000) as i32
}

fn count_eyes(note: &Note) -> i32 {
    let mut eyes: usize = 0;
    for file in note.files.as_slice() {
        eyes = eyes.saturating_add(file.eyes.len());
    }
    count(eyes)
}

fn of_item(item: &PeerIn) -> Told {
    match item {
        PeerIn::Bytes(bytes) => ('b', count(bytes.len())),
        PeerIn::Handle(handle) => match handle.kind {
            HandleKind::File => ('f', handle.number),
            HandleKind::PipeWrite => ('p', handle.number),
        },
        PeerIn::Note(note) => ('n', count_eyes(note)),
        PeerIn::Pipe(PipeItem::Bytes { pipe: _, bytes }) => ('w', count(bytes.len())),
        PeerIn::Pipe(PipeItem::End { pipe }) => ('e', *pipe),
        PeerIn::Pipe(PipeItem::Shut { pipe }) => ('s', *pipe),
    }
}

/// Takes items for so many bytes, at most a hundred.
fn take(peer: &mut ScriptPeer, most: u32, told: &mut Vec<Told>) -> Result<(), AllocError> {
    let mut left = most as usize;
    for _ in 0..100 {
        match peer.next(left)? {
            Some(it) => {
                left = left.saturating_sub(it.cost);
                told.push(of_item(&it.item))?;
            }
            None => return Ok(()),
        }
    }
    Ok(())
}

fn play(peer: &mut ScriptPeer, steps: &[Step], told: &mut Vec<Told>) -> Result<(), AllocError> {
    for step in steps {
        match &step.what {
            StepKind::Take { peer: _, bytes } => take(peer, *bytes, told)?,
            what => peer.act(what)?,
        }
    }
    Ok(())
}

fn script(alloc: Global, text: &[u8]) -> Result<Script, AllocError> {
    match read_script(alloc, text) {
        Ok(script) => Ok(script),
        Err(_) => Err(AllocError),
    }
}

/// Whether a peer's `take` lines give these items.
fn gives(alloc: Global, side: Side, text: &[u8], wanted: &[Told]) -> Result<bool, AllocError> {
    let script = script(alloc, text)?;
    let mut peer = ScriptPeer::new(alloc, side);
    let mut told = Vec::new(alloc);
    play(&mut peer, script.steps.as_slice(), &mut told)?;
    Ok(told.as_slice() == wanted)
}

#[test]
fn items_of_lines(rt: HostRuntime) {
    for (side, text, wanted) in ROWS {
        assert_eq!(rt; gives(rt.alloc(), side, text, wanted), Ok(true));
    }
}

#[test]
fn messages_are_kept(rt: HostRuntime) -> Result<(), Fail> {
    let mut peer = ScriptPeer::new(rt.alloc(), Side::Near);
    peer.given(PeerOut::Bytes(Bytes::from_slice(rt.alloc(), &[1, 2])?))?;
    assert_eq!(rt; peer.received().messages().len(), 1);
    assert!(rt; peer.is_taken());
    assert_eq!(rt; peer.into_received().receipts().len(), 0);
    Ok(())
}
