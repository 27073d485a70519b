//! The line that shows a frame.

ghost use Rattle.std.specs.Prelude.{◌≡◌, ◌++◌, ◌∷◌, [], List, map, decimal, OnOk, OnErr, IfOk};
ghost use Rattle.std.specs.Fmt.{signed_decimal};
ghost use Rattle.hex.specs.Hex.{encode_lower};
ghost use Rattle.transfer_frames.specs.FrameLines.{type_name, fields, spaced, line};

use crate::frame::Frame;
use crate::kinds::FrameType;
use itoa::Buffer;
use std::alloc::{AllocError, Global};
use wl_wire::Text;

/// The name of a type.
#[tactic(auto, unfolding(crate::specs::FrameLines::type_name))]
fn name_of(frame_type: FrameType) -> &'static [u8]
    ensures { result.now ≡ type_name frame_type }
{
    match frame_type {
        FrameType::Protocol => b"PROTOCOL",
        FrameType::Inject => b"INJECT",
        FrameType::OpenFile => b"OPEN_FILE",
        FrameType::ExtendFile => b"EXTEND_FILE",
        FrameType::Fill => b"FILL",
        FrameType::OpenPipe => b"OPEN_PIPE",
        FrameType::PipeTransfer => b"PIPE_TRANSFER",
        FrameType::PipeShutR => b"PIPE_SHUT_R",
        FrameType::PipeShutW => b"PIPE_SHUT_W",
        FrameType::Ack => b"ACK",
        FrameType::Restart => b"RESTART",
        FrameType::Close => b"CLOSE",
    }
}

/// Adds a space and a field.
fn put_field(out: &mut Vec<u8>, field: &[u8]) -> Result<(), AllocError>
    ensures { OnOk result (out.new.items ≡ out.old.items ++ spaced (field.now ∷ [])) }
{
    out.push(b' ')?;
    out.extend_from_slice(field)
}

fn put_number(out: &mut Vec<u8>, number: u64) -> Result<(), AllocError>
    ensures { OnOk result (out.new.items ≡ out.old.items ++ spaced (decimal number ∷ [])) }
{
    let mut buffer = Buffer::new();
    put_field(out, buffer.format(number).as_bytes())
}

fn put_rid(out: &mut Vec<u8>, rid: i32) -> Result<(), AllocError>
    ensures { OnOk result (out.new.items ≡ out.old.items ++ spaced (signed_decimal rid ∷ [])) }
{
    let mut buffer = Buffer::new();
    put_field(out, buffer.format(rid).as_bytes())
}

/// How many bytes are turned into digits at a time.
const PIECE: usize = 128;

/// Adds bytes in hexadecimal, by way of a small buffer.
fn put_digits(out: &mut Vec<u8>, bytes: &[u8]) -> Result<(), AllocError>
    ensures { OnOk result (out.new.items ≡ out.old.items ++ encode_lower bytes.now) }
{
    let mut digits = [0u8; 2 * PIECE];
    let mut rest = bytes;
    'pieces: while !rest.is_empty() {
        let (piece, behind) = rest.split_at(rest.len().min(PIECE));
        let text = &mut digits[..2 * piece.len()];
        match hex::encode_to_slice(piece, text) {
            Ok(()) => out.extend_from_slice(text)?,
            Err(_) => unreachable!("there are two digits for each byte"),
        }
        rest = behind;
    }
    Ok(())
}

fn put_hex(out: &mut Vec<u8>, bytes: &[u8]) -> Result<(), AllocError>
    ensures { OnOk result (out.new.items ≡ out.old.items ++ spaced (encode_lower bytes.now ∷ [])) }
{
    out.push(b' ')?;
    put_digits(out, bytes)
}

fn put_rids(out: &mut Vec<u8>, rids: &[i32]) -> Result<(), AllocError>
    ensures { OnOk result (out.new.items ≡ out.old.items ++ spaced (map signed_decimal rids.now)) }
{
    for rid in rids {
        put_rid(out, *rid)?;
    }
    Ok(())
}

fn put_rid_and_number(out: &mut Vec<u8>, rid: i32, number: u32) -> Result<(), AllocError>
    ensures { OnOk result (out.new.items ≡ out.old.items
        ++ spaced (signed_decimal rid ∷ decimal number ∷ [])) }
{
    put_rid(out, rid)?;
    put_number(out, u64::from(number))
}

fn put_rid_and_hex(out: &mut Vec<u8>, rid: i32, bytes: &[u8]) -> Result<(), AllocError>
    ensures { OnOk result (out.new.items ≡ out.old.items
        ++ spaced (signed_decimal rid ∷ encode_lower bytes.now ∷ [])) }
{
    put_rid(out, rid)?;
    put_hex(out, bytes)
}

fn put_range(
    out: &mut Vec<u8>,
    rid: i32,
    start: u32,
    end: u32,
    bytes: &[u8],
) -> Result<(), AllocError>
    ensures { OnOk result (out.new.items ≡ out.old.items
        ++ spaced (signed_decimal rid ∷ decimal start ∷ decimal end
        ∷ encode_lower bytes.now ∷ [])) }
{
    put_rid(out, rid)?;
    put_number(out, u64::from(start))?;
    put_number(out, u64::from(end))?;
    put_hex(out, bytes)
}

fn put_greeting(
    out: &mut Vec<u8>,
    token: &[u8; 16],
    connection: u32,
    received: u64,
) -> Result<(), AllocError>
    ensures { OnOk result (out.new.items ≡ out.old.items
        ++ spaced (encode_lower token.now ∷ decimal connection ∷ decimal received ∷ [])) }
{
    put_hex(out, token.as_slice())?;
    put_number(out, u64::from(connection))?;
    put_number(out, received)
}

/// Adds a frame's fields, a space before each.
fn put_fields(out: &mut Vec<u8>, frame: &Frame) -> Result<(), AllocError>
    ensures { OnOk result (out.new.items ≡ out.old.items ++ spaced (fields frame.now)) }
{
    match frame {
        Frame::Protocol { messages } => put_hex(out, messages.as_slice()),
        Frame::Inject { rids } => put_rids(out, rids.as_slice()),
        Frame::OpenFile { rid, size } => put_rid_and_number(out, *rid, *size),
        Frame::ExtendFile { rid, size } => put_rid_and_number(out, *rid, *size),
        Frame::Fill {
            rid,
            start,
            end,
            bytes,
        } => put_range(out, *rid, *start, *end, bytes.as_slice()),
        Frame::OpenPipe { rid } => put_rid(out, *rid),
        Frame::PipeTransfer { rid, bytes } => put_rid_and_hex(out, *rid, bytes.as_slice()),
        Frame::PipeShutR { rid } => put_rid(out, *rid),
        Frame::PipeShutW { rid } => put_rid(out, *rid),
        Frame::Ack { count } => put_number(out, *count),
        Frame::Restart {
            token,
            connection,
            received,
        } => put_greeting(out, token, *connection, *received),
        Frame::Close { reason } => put_number(out, u64::from(*reason)),
    }
}

/// Adds bytes to a text in lower-case hexadecimal, two digits a byte.
///
/// # Errors
/// Only where memory runs out; the text is then empty.
pub fn append_hex(out: &mut Text, bytes: &[u8]) -> Result<(), AllocError>
    ensures ok { OnOk result (out.new ≡ out.old ++ encode_lower bytes.now) }
    ensures err { OnErr result (out.new ≡ []) }
{
    let mut text = out.take_vec();
    put_digits(&mut text, bytes)?;
    out.swap_vec(&mut text);
    Ok(())
}

/// A text with the line that shows a frame behind it: its place in the stream in decimal, its name
/// and its fields, one space between, without the byte that ends a line. Numbers are in decimal,
/// bytes in lower-case hexadecimal.
///
/// # Errors
/// Only where memory runs out; the text is dropped then.
pub fn with_frame_line(text: Text, place: u64, frame: &Frame) -> Result<Text, AllocError>
    ensures { IfOk result (λ it. it ≡ text ++ line place frame.now) }
{
    let mut out = text.into_vec();
    let mut buffer = Buffer::new();
    out.extend_from_slice(buffer.format(place).as_bytes())?;
    put_field(&mut out, name_of(frame.frame_type()))?;
    put_fields(&mut out, frame)?;
    Ok(Text::from_vec(out))
}

/// The line that shows a frame, as `with_frame_line` has it.
///
/// # Errors
/// Only where memory runs out.
pub fn frame_line(alloc: Global, place: u64, frame: &Frame) -> Result<Text, AllocError>
    ensures { IfOk result (λ text. text ≡ line place frame.now) }
{
    with_frame_line(Text::new(alloc), place, frame)
}
