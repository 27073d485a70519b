//! The kinds of field, once they have their form.

ghost use Rattle.std.specs.Prelude.{◌≡◌, IfOk};
ghost use Rattle.script_lang.specs.Kinds.{number, word, size, received, own, bytes, byte, who};
ghost use Rattle.script_lang.specs.Kinds.{direction, formed};
ghost use Rattle.script_lang.specs.Rows.{ranged, read};

use crate::causes::ScriptCause;
use crate::digits::{decode, decode_into};
use crate::limits::LARGEST_FILE;
use crate::numbers::{is_negative, number_value, unsigned};
use std::alloc::{AllocError, Global};
use wl_wire::Bytes;
use wp_outside::{Direction, Side};

/// The most digits that a field of bytes may have.
const MOST_DIGITS: usize = 131_072;

/// A number from the one to the other.
pub fn number(field: &[u8], low: u32, high: u32) -> Result<u32, ScriptCause>
    ensures { result ≡ ranged (number low high) field.now }
{
    match number_value(field) {
        Some(value) if u64::from(low) <= value && value <= u64::from(high) => Ok(value as u32),
        _ => Err(ScriptCause::Number),
    }
}

/// Any unsigned number of 64 bits.
pub fn word(field: &[u8]) -> Result<u64, ScriptCause>
    ensures { result ≡ ranged word field.now }
{
    match number_value(field) {
        Some(value) => Ok(value),
        None => Err(ScriptCause::Number),
    }
}

/// The size of a file, in bytes.
pub fn size(field: &[u8]) -> Result<u32, ScriptCause>
    ensures { result ≡ ranged size field.now }
{
    match number(field, 64, LARGEST_FILE) {
        Ok(size) if size % 64 == 0 => Ok(size),
        _ => Err(ScriptCause::Number),
    }
}

/// The number of a handle that was received.
pub fn received(field: &[u8]) -> Result<i32, ScriptCause>
    ensures { result ≡ ranged received field.now }
{
    match number(unsigned(field), 1, 2_147_483_647) {
        Ok(magnitude) if is_negative(field) => Ok(-(magnitude as i32)),
        Ok(magnitude) => Ok(magnitude as i32),
        Err(cause) => Err(cause),
    }
}

/// The number of a peer's own handle.
pub fn own(peer: Side, field: &[u8]) -> Result<i32, ScriptCause>
    ensures { result ≡ ranged (own peer) field.now }
{
    if is_negative(field) != (peer == Side::Far) {
        return Err(ScriptCause::Number);
    }
    received(field)
}

/// The bytes of a field of 2 to 131,072 digits, or None where it is none.
///
/// # Errors
/// Only where memory runs out.
pub fn bytes(alloc: Global, field: &[u8]) -> Result<Option<Bytes>, AllocError>
    ensures { IfOk result (λ it. it ≡ formed bytes field.now) }
{
    if field.len() < 2 || field.len() > MOST_DIGITS {
        return Ok(None);
    }
    decode(alloc, field)
}

/// The byte of two digits, or None where a field is none.
pub fn byte(field: &[u8]) -> Option<u8>
    ensures { result ≡ formed byte field.now }
{
    let mut bytes = [0u8];
    if field.len() == 2 && decode_into(field, &mut bytes) {
        Some(bytes[0])
    } else {
        None
    }
}

/// The application or the compositor.
pub fn who(field: &[u8]) -> Result<Side, ScriptCause>
    ensures { result ≡ read who field.now }
{
    if field == b"app".as_slice() {
        Ok(Side::Near)
    } else if field == b"comp".as_slice() {
        Ok(Side::Far)
    } else {
        Err(ScriptCause::Form)
    }
}

/// The way of bytes through the link.
pub fn direction(field: &[u8]) -> Result<Direction, ScriptCause>
    ensures { result ≡ read direction field.now }
{
    if field == b"up".as_slice() {
        Ok(Direction::Up)
    } else if field == b"down".as_slice() {
        Ok(Direction::Down)
    } else {
        Err(ScriptCause::Form)
    }
}
