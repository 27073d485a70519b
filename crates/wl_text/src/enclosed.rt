//! Bytes in a text: a string between quotes, an array between brackets.

ghost use Rattle.std.specs.Prelude.{◌≡◌, ◌+◌, ◌++◌, ◌<◌, ◌∷◌, [], OnOk};
ghost use Rattle.std.specs.List.{flat_map};
ghost use Rattle.wl_text.specs.Answers.{AnswersFront};
ghost use Rattle.wl_text.specs.Front.{read_view};
ghost use Rattle.wl_text.specs.Enclosed.{digit, digit_number, two_digits, two_digits_at, is_marked};
ghost use Rattle.wl_text.specs.Enclosed.{is_shown, byte_text, hidden, escape_at, byte_at, opening};
ghost use Rattle.wl_text.specs.Enclosed.{closing, item_text, item_at, enclosed_text, items_at};
ghost use Rattle.wl_text.specs.Enclosed.{enclosed_at};

use crate::front::behind;
use crate::text_message::TextFault;
use std::alloc::{AllocError, Global};
use wl_wire::{Bytes, Text};

/// What stands around bytes, and so how they are written.
#[derive(Clone, Copy)]
pub(crate) enum Enclosure {
    /// A string: visible bytes as they are, with escapes for others.
    Quotes,
    /// An array: two hexadecimal digits for each byte.
    Brackets,
}

impl Enclosure {
    /// The byte before the first.
    fn opening(self) -> u8
        ensures { result ≡ opening self }
    {
        match self {
            Enclosure::Quotes => b'"',
            Enclosure::Brackets => b'[',
        }
    }

    /// The byte behind the last.
    fn closing(self) -> u8
        ensures { result ≡ closing self }
    {
        match self {
            Enclosure::Quotes => b'"',
            Enclosure::Brackets => b']',
        }
    }
}

/// The digit of a number below 16.
fn digit(number: u8) -> u8
    requires { number < 16 }
    ensures { result ≡ digit number }
{
    if number < 10 {
        b'0' + number
    } else {
        87 + number
    }
}

/// The number of a digit.
fn digit_number(byte: u8) -> Option<u8>
    ensures { result ≡ digit_number byte }
{
    match byte {
        b'0'..=b'9' => Some(byte - b'0'),
        b'a'..=b'f' => Some(byte - 87),
        _ => None,
    }
}

/// Adds the two digits of a byte.
fn put_two_digits(out: &mut Text, byte: u8) -> Result<(), AllocError>
    ensures { OnOk result (out.new ≡ out.old ++ two_digits byte) }
{
    out.append(&[digit(byte / 16), digit(byte % 16)])
}

/// The byte of two digits.
fn two_digits_at(text: &[u8]) -> Option<(u8, &[u8])>
    ensures { read_view result ≡ two_digits_at text.now }
{
    match text {
        [high, low, rest @ ..] => {
            let upper = digit_number(*high)?;
            let lower = digit_number(*low)?;
            Some((16 * upper + lower, rest))
        }
        _ => None,
    }
}

/// Whether a byte of a string stands behind a backslash.
fn is_marked(byte: u8) -> bool
    ensures { result ≡ is_marked byte }
{
    byte == b'"' || byte == b'\\'
}

/// Whether a byte is visible or a space.
fn is_shown(byte: u8) -> bool
    ensures { result ≡ is_shown byte }
{
    byte >= b' ' && byte <= b'~'
}

/// Adds a byte of a string.
fn put_byte(out: &mut Text, byte: u8) -> Result<(), AllocError>
    ensures { OnOk result (out.new ≡ out.old ++ byte_text byte) }
{
    if is_marked(byte) {
        out.append(&[b'\\', byte])
    } else if is_shown(byte) {
        out.push(byte)
    } else {
        out.append(&[b'\\', b'x', digit(byte / 16), digit(byte % 16)])
    }
}

/// A byte that was read from two digits, which one that is shown is not written with.
fn hidden(byte: u8, rest: &[u8]) -> Option<(u8, &[u8])>
    ensures { read_view result ≡ hidden (byte, rest.now) }
{
    if is_shown(byte) {
        None
    } else {
        Some((byte, rest))
    }
}

/// What stands behind a backslash.
fn escape_at(text: &[u8]) -> Option<(u8, &[u8])>
    ensures { read_view result ≡ escape_at text.now }
{
    match text {
        [first, rest @ ..] => {
            if is_marked(*first) {
                Some((*first, rest))
            } else if *first == b'x' {
                let (byte, rest) = two_digits_at(rest)?;
                hidden(byte, rest)
            } else {
                None
            }
        }
        [] => None,
    }
}

/// A byte of a string.
fn byte_at(text: &[u8]) -> Option<(u8, &[u8])>
    ensures { read_view result ≡ byte_at text.now }
{
    match text {
        [first, rest @ ..] => {
            if *first == b'\\' {
                escape_at(rest)
            } else if is_shown(*first) && *first != b'"' {
                Some((*first, rest))
            } else {
                None
            }
        }
        [] => None,
    }
}

/// Adds one byte.
fn put_item(out: &mut Text, kind: Enclosure, byte: u8) -> Result<(), AllocError>
    ensures { OnOk result (out.new ≡ out.old ++ item_text kind byte) }
{
    match kind {
        Enclosure::Quotes => put_byte(out, byte),
        Enclosure::Brackets => put_two_digits(out, byte),
    }
}

/// One byte.
fn item_at(kind: Enclosure, text: &[u8]) -> Option<(u8, &[u8])>
    ensures { read_view result ≡ item_at kind text.now }
{
    match kind {
        Enclosure::Quotes => byte_at(text),
        Enclosure::Brackets => two_digits_at(text),
    }
}

/// Adds all bytes.
fn put_items(out: &mut Text, kind: Enclosure, bytes: &[u8]) -> Result<(), AllocError>
    ensures { OnOk result (out.new ≡ out.old ++ flat_map (item_text kind) bytes.now) }
{
    'bytes: for byte in bytes {
        put_item(out, kind, *byte)?;
    }
    Ok(())
}

/// Adds bytes with what is around them.
pub(crate) fn put_enclosed(out: &mut Text, kind: Enclosure, bytes: &[u8]) -> Result<(), AllocError>
    ensures { OnOk result (out.new ≡ out.old ++ enclosed_text kind bytes.now) }
{
    out.push(kind.opening())?;
    put_items(out, kind, bytes)?;
    out.push(kind.closing())
}

/// The bytes up to the closing one.
fn items_at(alloc: Global, kind: Enclosure, text: &[u8]) -> Result<(Bytes, &[u8]), TextFault>
    ensures { AnswersFront result (items_at kind text.now) }
{
    let mut bytes = Bytes::new(alloc);
    let mut rest = text;
    // Each turn takes a byte of the text at least.
    'items: for _ in 0..text.len() {
        if let Some(after) = behind(&[kind.closing()], rest) {
            return Ok((bytes, after));
        }
        match item_at(kind, rest) {
            Some((byte, after)) => {
                bytes.push(byte)?;
                rest = after;
            }
            None => return Err(TextFault::Form),
        }
    }
    Err(TextFault::Form)
}

/// Bytes with what is around them.
#[tactic(auto, unfolding(crate::specs::Enclosed::enclosed_at))]
pub(crate) fn enclosed_at(
    alloc: Global,
    kind: Enclosure,
    text: &[u8],
) -> Result<(Bytes, &[u8]), TextFault>
    ensures { AnswersFront result (enclosed_at kind text.now) }
{
    match behind(&[kind.opening()], text) {
        Some(rest) => items_at(alloc, kind, rest),
        None => Err(TextFault::Form),
    }
}
