//! Writing a frame as bytes.

ghost use Rattle.std.specs.Prelude.{◌≡◌, ◌+◌, ◌*◌, ◌<◌, ◌≤◌, ◌++◌, List, length, replicate, OnOk};
ghost use Rattle.std.specs.Prelude.{OnErr, IfOk};
ghost use Rattle.std.specs.List.{flat_map};
ghost use Rattle.std.specs.Vec.{vec_len, vec_capacity};
ghost use Rattle.transfer_frames.specs.Numbers.{rid_bytes, word_bytes, long_bytes};
ghost use Rattle.transfer_frames.specs.Grammar.{body, body_length, IsFrame, spelling};

use crate::frame::Frame;
use crate::numbers::{put_long, put_rid, put_word};
use plain_lists::append_reserved;
use std::alloc::{AllocError, Global};
use wl_wire::Bytes;

// What follows adds to bytes that have the room for it, and so takes no memory.

fn put_rids(out: &mut Vec<u8>, rids: &[i32])
    requires { vec_len out.old + 4 * length rids.now ≤ vec_capacity out.old }
    ensures items { out.new.items ≡ out.old.items ++ flat_map rid_bytes rids.now }
    ensures len { vec_len out.new ≡ vec_len out.old + 4 * length rids.now }
    ensures room { vec_capacity out.old ≤ vec_capacity out.new }
{
    for rid in rids {
        put_rid(out, *rid);
    }
}

fn put_rid_and_word(out: &mut Vec<u8>, rid: i32, word: u32)
    requires { vec_len out.old + 8 ≤ vec_capacity out.old }
    ensures items { out.new.items ≡ out.old.items ++ (rid_bytes rid ++ word_bytes word) }
    ensures len { vec_len out.new ≡ vec_len out.old + 8 }
    ensures room { vec_capacity out.old ≤ vec_capacity out.new }
{
    put_rid(out, rid);
    put_word(out, word);
}

fn put_rid_and_bytes(out: &mut Vec<u8>, rid: i32, bytes: &[u8])
    requires { vec_len out.old + (4 + length bytes.now) ≤ vec_capacity out.old }
    ensures items { out.new.items ≡ out.old.items ++ (rid_bytes rid ++ bytes.now) }
    ensures len { vec_len out.new ≡ vec_len out.old + (4 + length bytes.now) }
    ensures room { vec_capacity out.old ≤ vec_capacity out.new }
{
    put_rid(out, rid);
    append_reserved(out, bytes);
}

fn put_fill(out: &mut Vec<u8>, rid: i32, start: u32, end: u32, bytes: &[u8])
    requires { vec_len out.old + (12 + length bytes.now) ≤ vec_capacity out.old }
    ensures items { out.new.items ≡ out.old.items
        ++ (rid_bytes rid ++ (word_bytes start ++ (word_bytes end ++ bytes.now))) }
    ensures len { vec_len out.new ≡ vec_len out.old + (12 + length bytes.now) }
    ensures room { vec_capacity out.old ≤ vec_capacity out.new }
{
    put_rid(out, rid);
    put_word(out, start);
    put_word(out, end);
    append_reserved(out, bytes);
}

fn put_restart(out: &mut Vec<u8>, token: &[u8; 16], connection: u32, received: u64)
    requires { vec_len out.old + 28 ≤ vec_capacity out.old }
    ensures items { out.new.items ≡ out.old.items
        ++ (token.now ++ (word_bytes connection ++ long_bytes received)) }
    ensures len { vec_len out.new ≡ vec_len out.old + 28 }
    ensures room { vec_capacity out.old ≤ vec_capacity out.new }
{
    append_reserved(out, token.as_slice());
    put_word(out, connection);
    put_long(out, received);
}

/// Adds a frame's body.
fn put_body(out: &mut Vec<u8>, frame: &Frame)
    requires { vec_len out.old + body_length frame.now ≤ vec_capacity out.old }
    ensures items { out.new.items ≡ out.old.items ++ body frame.now }
    ensures len { vec_len out.new ≡ vec_len out.old + body_length frame.now }
    ensures room { vec_capacity out.old ≤ vec_capacity out.new }
{
    match frame {
        Frame::Protocol { messages } => append_reserved(out, messages.as_slice()),
        Frame::Inject { rids } => put_rids(out, rids.as_slice()),
        Frame::OpenFile { rid, size } => put_rid_and_word(out, *rid, *size),
        Frame::ExtendFile { rid, size } => put_rid_and_word(out, *rid, *size),
        Frame::Fill {
            rid,
            start,
            end,
            bytes,
        } => put_fill(out, *rid, *start, *end, bytes.as_slice()),
        Frame::OpenPipe { rid } => put_rid(out, *rid),
        Frame::PipeTransfer { rid, bytes } => put_rid_and_bytes(out, *rid, bytes.as_slice()),
        Frame::PipeShutR { rid } => put_rid(out, *rid),
        Frame::PipeShutW { rid } => put_rid(out, *rid),
        Frame::Ack { count } => put_long(out, *count),
        Frame::Restart {
            token,
            connection,
            received,
        } => put_restart(out, token, *connection, *received),
        Frame::Close { reason } => put_word(out, *reason),
    }
}

/// How many bytes a frame's body has.
#[tactic(auto, using(crate::proofs::BodyLaws::body_length_is))]
fn length_of_body(frame: &Frame) -> usize
    requires { IsFrame frame.now }
    ensures length { result ≡ body_length frame.now }
    ensures body { result ≡ length (body frame.now) }
{
    match frame {
        Frame::Protocol { messages } => messages.len(),
        Frame::Inject { rids } => 4 * rids.len(),
        Frame::OpenFile { .. } => 8,
        Frame::ExtendFile { .. } => 8,
        Frame::Fill { bytes, .. } => 12 + bytes.len(),
        Frame::OpenPipe { .. } => 4,
        Frame::PipeTransfer { bytes, .. } => 4 + bytes.len(),
        Frame::PipeShutR { .. } => 4,
        Frame::PipeShutW { .. } => 4,
        Frame::Ack { .. } => 8,
        Frame::Restart { .. } => 28,
        Frame::Close { .. } => 4,
    }
}

/// How many bytes a frame's spelling has, its padding included. Takes no memory.
#[tactic(auto, using(crate::proofs::FrameLaws::spelling_length))]
pub fn spelled_len(frame: &Frame) -> usize
    requires { IsFrame frame.now }
    ensures { result ≡ length (spelling frame.now) }
{
    (4 + length_of_body(frame) + 3) / 4 * 4
}

/// Adds this many zeros.
fn put_zeros(out: &mut Vec<u8>, count: usize)
    requires few { count < 4 }
    requires room { vec_len out.old + count ≤ vec_capacity out.old }
    ensures { out.new.items ≡ out.old.items ++ replicate count 0 }
{
    let zeros = [0u8; 3];
    append_reserved(out, zeros.split_at(count).0);
}

/// Adds a frame's spelling.
#[tactic(auto, unfolding(crate::specs::Grammar::spelling), using(crate::proofs::FrameLaws::spelling_length))]
fn put_frame(out: &mut Vec<u8>, frame: &Frame)
    requires frame { IsFrame frame.now }
    requires room { vec_len out.old + length (spelling frame.now) ≤ vec_capacity out.old }
    ensures { out.new.items ≡ out.old.items ++ spelling frame.now }
{
    let size = 4 + length_of_body(frame);
    put_word(out, frame.frame_type().first_word(size as u32));
    put_body(out, frame);
    put_zeros(out, (4 - size % 4) % 4);
}

/// Adds the one spelling of a frame at the end.
///
/// # Errors
/// Only where memory runs out; the bytes are then unchanged.
pub fn append_frame(out: &mut Bytes, frame: &Frame) -> Result<(), AllocError>
    requires { IsFrame frame.now }
    ensures ok { OnOk result (out.new ≡ out.old ++ spelling frame.now) }
    ensures err { OnErr result (out.new ≡ out.old) }
{
    let mut bytes = out.take_vec();
    match bytes.reserve(spelled_len(frame)) {
        Ok(()) => {
            put_frame(&mut bytes, frame);
            out.swap_vec(&mut bytes);
            Ok(())
        }
        Err(error) => {
            out.swap_vec(&mut bytes);
            Err(error)
        }
    }
}

/// The one spelling of a frame.
///
/// # Errors
/// Only where memory runs out.
pub fn encode(alloc: Global, frame: &Frame) -> Result<Bytes, AllocError>
    requires { IsFrame frame.now }
    ensures { IfOk result (λ bytes. bytes ≡ spelling frame.now) }
{
    let mut bytes = Vec::with_capacity(alloc, spelled_len(frame))?;
    put_frame(&mut bytes, frame);
    Ok(Bytes::from_vec(bytes))
}
