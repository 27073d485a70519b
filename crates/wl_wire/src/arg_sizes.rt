//! How many bytes an argument takes, and what may be wrong with it.

ghost use Rattle.std.specs.Prelude.{◌≡◌, ◌≤◌, ◌<◌, length, false, IfOk};
ghost use Rattle.wl_wire.specs.Arguments.{padding_of};
ghost use Rattle.wl_wire.specs.ArgFaults.{span_of, word_size, object_size, array_size, string_size, with_two_words, arg_size};

use crate::faults::WireFault;
use crate::message::word_from;
use crate::signature::{ArgKind, Slot};

/// How many bytes fill so many up to a multiple of four.
#[tactic(auto, unfolding(crate::specs::Arguments::padding_of))]
pub(crate) fn padding_of(count: usize) -> usize
    ensures value { result ≡ padding_of count }
    ensures small { result < 4 }
{
    (4 - count % 4) % 4
}

/// The bytes of the length at the front, of what it counts and of the padding.
#[tactic(auto, unfolding(crate::specs::ArgFaults::span_of))]
fn span_of(bytes: &[u8]) -> usize
    requires { 4 ≤ length bytes.now }
    ensures { result ≡ span_of bytes.now }
{
    let count = word_from(bytes, 0) as usize;
    4 + (count + padding_of(count))
}

#[tactic(auto, unfolding(crate::specs::ArgFaults::word_size))]
fn word_size(bytes: &[u8]) -> Result<usize, WireFault>
    ensures exact { result ≡ word_size bytes.now }
    ensures there { IfOk result (λ size. size ≤ length bytes.now) }
{
    if bytes.len() < 4 {
        Err(WireFault::ArgShort)
    } else {
        Ok(4)
    }
}

#[tactic(auto, unfolding(crate::specs::ArgFaults::object_size))]
fn object_size(bytes: &[u8], null: bool) -> Result<usize, WireFault>
    ensures exact { result ≡ object_size null bytes.now }
    ensures there { IfOk result (λ size. size ≤ length bytes.now) }
{
    if bytes.len() < 4 {
        Err(WireFault::ArgShort)
    } else if word_from(bytes, 0) == 0 {
        if null {
            Ok(4)
        } else {
            Err(WireFault::NullNotAllowed)
        }
    } else {
        Ok(4)
    }
}

#[tactic(auto, unfolding(crate::specs::ArgFaults::array_size))]
fn array_size(bytes: &[u8]) -> Result<usize, WireFault>
    ensures exact { result ≡ array_size bytes.now }
    ensures there { IfOk result (λ size. size ≤ length bytes.now) }
{
    if bytes.len() < 4 {
        return Err(WireFault::ArgShort);
    }
    let span = span_of(bytes);
    if bytes.len() < span {
        Err(WireFault::ArgShort)
    } else {
        Ok(span)
    }
}

#[tactic(auto, unfolding(crate::specs::ArgFaults::string_size, crate::specs::ArgFaults::span_of))]
fn string_size(bytes: &[u8], null: bool) -> Result<usize, WireFault>
    ensures exact { result ≡ string_size null bytes.now }
    ensures there { IfOk result (λ size. size ≤ length bytes.now) }
{
    if bytes.len() < 4 {
        return Err(WireFault::ArgShort);
    }
    let count = word_from(bytes, 0) as usize;
    if count == 0 {
        return if null {
            Ok(4)
        } else {
            Err(WireFault::NullNotAllowed)
        };
    }
    let span = span_of(bytes);
    if bytes.len() < span {
        Err(WireFault::ArgShort)
    } else if bytes[count + 3] == 0 {
        Ok(span)
    } else {
        Err(WireFault::StringNoNul)
    }
}

/// A string that isn't null, and two words behind it.
fn bind_size(bytes: &[u8]) -> Result<usize, WireFault>
    ensures exact { result ≡ with_two_words (string_size false bytes.now) bytes.now }
    ensures there { IfOk result (λ size. size ≤ length bytes.now) }
{
    let size = string_size(bytes, false)?;
    if bytes.len() < size + 8 {
        Err(WireFault::ArgShort)
    } else {
        Ok(size + 8)
    }
}

/// How many bytes the argument at the front takes.
///
/// # Errors
/// What is wrong with it: `ArgShort`, `StringNoNul` or `NullNotAllowed`.
pub(crate) fn arg_size(slot: Slot, bytes: &[u8]) -> Result<usize, WireFault>
    ensures exact { result ≡ arg_size slot.kind slot.null bytes.now }
    ensures there { IfOk result (λ size. size ≤ length bytes.now) }
{
    match slot.kind {
        ArgKind::Int | ArgKind::Uint | ArgKind::Fixed | ArgKind::NewId => word_size(bytes),
        ArgKind::Str => string_size(bytes, slot.null),
        ArgKind::Object => object_size(bytes, slot.null),
        ArgKind::Bind => bind_size(bytes),
        ArgKind::Array => array_size(bytes),
        ArgKind::Handle => Ok(0),
    }
}
