//! The fields of a line, by their kinds.

ghost use Rattle.std.specs.Prelude.{◌≡◌};
ghost use Rattle.std.specs.Option.{option_copied};
ghost use Rattle.script_lang.specs.Kinds.{number, size, received, own, bytes, who, direction};
ghost use Rattle.script_lang.specs.Kinds.{place, count, word, byte};
ghost use Rattle.script_lang.specs.Pieces.{fields_behind};
ghost use Rattle.script_lang.specs.Reading.{Read};
ghost use Rattle.script_lang.specs.Rows.{only, both, pair, none};

use crate::causes::ScriptCause;
use crate::faults::LineFault;
use crate::kinds;
use crate::numbers::{is_number, is_signed};
use crate::pieces::{four_fields, one_field, three_fields, two_fields};
use crate::steps::StepKind;
use std::alloc::Global;
use wl_wire::Bytes;
use wp_outside::{Direction, Side};

/// The greatest count, of bytes mostly.
pub const MOST_COUNT: u32 = 1_000_000_000;

/// Two values, or the first cause for which there are none.
pub fn both<A: Drop, B: Drop>(
    first: Result<A, ScriptCause>,
    second: Result<B, ScriptCause>,
) -> Result<(A, B), ScriptCause>
    ensures { result ≡ both first second }
{
    Ok((first?, second?))
}

/// What a line without fields asks for.
#[tactic(auto, using(crate::proofs::PieceLemmas::fields_cut))]
pub fn nothing(fields: Option<&[u8]>, what: StepKind) -> Result<StepKind, ScriptCause>
    ensures { result ≡ none what (fields_behind (option_copied fields.entry)) }
{
    match fields {
        Some(_) => Err(ScriptCause::Form),
        None => Ok(what),
    }
}

/// A number from the one to the other.
pub fn number(fields: Option<&[u8]>, low: u32, high: u32) -> Result<u32, ScriptCause>
    ensures { result ≡ only (number low high) (fields_behind (option_copied fields.entry)) }
{
    match one_field(fields) {
        Some(field) if is_number(field) => kinds::number(field, low, high),
        _ => Err(ScriptCause::Form),
    }
}

/// A peer's own number.
pub fn own(peer: Side, fields: Option<&[u8]>) -> Result<i32, ScriptCause>
    ensures { result ≡ only (own peer) (fields_behind (option_copied fields.entry)) }
{
    match one_field(fields) {
        Some(field) if is_signed(field) => kinds::own(peer, field),
        _ => Err(ScriptCause::Form),
    }
}

/// A peer's own number, and the size of a file.
pub fn own_and_size(peer: Side, fields: Option<&[u8]>) -> Result<(i32, u32), ScriptCause>
    ensures { result ≡ pair (own peer) size (fields_behind (option_copied fields.entry)) }
{
    match two_fields(fields) {
        Some((number, size)) if is_signed(number) && is_number(size) => {
            both(kinds::own(peer, number), kinds::size(size))
        }
        _ => Err(ScriptCause::Form),
    }
}

/// The number of a handle that was received.
pub fn received(fields: Option<&[u8]>) -> Result<i32, ScriptCause>
    ensures { result ≡ only received (fields_behind (option_copied fields.entry)) }
{
    match one_field(fields) {
        Some(field) if is_signed(field) => kinds::received(field),
        _ => Err(ScriptCause::Form),
    }
}

/// Bytes.
pub fn bytes(alloc: Global, fields: Option<&[u8]>) -> Result<Bytes, LineFault>
    ensures { Read result (only bytes (fields_behind (option_copied fields.entry))) }
{
    match one_field(fields) {
        Some(field) => match kinds::bytes(alloc, field)? {
            Some(bytes) => Ok(bytes),
            None => Err(LineFault::Cause(ScriptCause::Form)),
        },
        None => Err(LineFault::Cause(ScriptCause::Form)),
    }
}

/// The number of a handle that was received, and bytes.
pub fn received_and_bytes(alloc: Global, fields: Option<&[u8]>) -> Result<(i32, Bytes), LineFault>
    ensures { Read result (pair received bytes (fields_behind (option_copied fields.entry))) }
{
    match two_fields(fields) {
        Some((pipe, digits)) if is_signed(pipe) => match kinds::bytes(alloc, digits)? {
            Some(bytes) => Ok((kinds::received(pipe)?, bytes)),
            None => Err(LineFault::Cause(ScriptCause::Form)),
        },
        _ => Err(LineFault::Cause(ScriptCause::Form)),
    }
}

/// The application or the compositor.
pub fn who(fields: Option<&[u8]>) -> Result<Side, ScriptCause>
    ensures { result ≡ only who (fields_behind (option_copied fields.entry)) }
{
    match one_field(fields) {
        Some(field) => kinds::who(field),
        None => Err(ScriptCause::Form),
    }
}

/// The application or the compositor, and a count of bytes.
pub fn who_and_count(fields: Option<&[u8]>) -> Result<(Side, u32), ScriptCause>
    ensures { result ≡ pair who count (fields_behind (option_copied fields.entry)) }
{
    match two_fields(fields) {
        Some((peer, count)) if is_number(count) => {
            both(kinds::who(peer), kinds::number(count, 1, MOST_COUNT))
        }
        _ => Err(ScriptCause::Form),
    }
}

/// A direction, and a number from the one to the greatest count.
pub fn direction_and_number(
    fields: Option<&[u8]>,
    low: u32,
) -> Result<(Direction, u32), ScriptCause>
    ensures { result ≡ pair direction (number low 1000000000)
        (fields_behind (option_copied fields.entry)) }
{
    match two_fields(fields) {
        Some((dir, bytes)) if is_number(bytes) => {
            both(kinds::direction(dir), kinds::number(bytes, low, MOST_COUNT))
        }
        _ => Err(ScriptCause::Form),
    }
}
