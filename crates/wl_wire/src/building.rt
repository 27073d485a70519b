//! Builds a message from its arguments.

ghost use Rattle.std.specs.Prelude.{◌≡◌, ◌+◌, ◌≤◌, ◌<◌, ◌^◌, ◌∷◌, [], ◌++◌, length, OnOk, IfOk};
ghost use Rattle.wl_wire.specs.Arguments.{padding_of};
ghost use Rattle.wl_wire.specs.Building.{word_bytes, zeros, counted_bytes, string_bytes_of, arg_bytes, args_bytes, built};

use crate::arg_sizes::padding_of;
use crate::arguments::Arg;
use crate::lists::{ArgList, Bytes};
use crate::message::{LONGEST_MESSAGE, Message};
use std::alloc::{AllocError, Global};

/// Adds a word.
#[tactic(auto, unfolding(crate::specs::Building::word_bytes))]
fn put_word(bytes: &mut Bytes, word: u32) -> Result<(), AllocError>
    ensures { OnOk result (bytes.new ≡ bytes.old ++ word_bytes word) }
{
    bytes.append(&word.to_le_bytes())
}

/// Adds the zeros behind so many bytes.
fn put_padding(bytes: &mut Bytes, count: usize) -> Result<(), AllocError>
    ensures { OnOk result (bytes.new ≡ bytes.old ++ zeros (padding_of count)) }
{
    let zeros = [0u8; 3];
    bytes.append(zeros.split_at(padding_of(count)).0)
}

/// Adds an array.
fn put_array(bytes: &mut Bytes, content: &[u8]) -> Result<(), AllocError>
    requires { length content.now < 65536 }
    ensures { OnOk result (bytes.new ≡ bytes.old ++ counted_bytes content.now) }
{
    put_word(bytes, content.len() as u32)?;
    bytes.append(content)?;
    put_padding(bytes, content.len())
}

/// Adds a string with its NUL.
fn put_string(bytes: &mut Bytes, text: &[u8]) -> Result<(), AllocError>
    requires { length text.now + 1 < 65536 }
    ensures { OnOk result (bytes.new ≡ bytes.old ++ string_bytes_of text.now) }
{
    put_word(bytes, text.len() as u32 + 1)?;
    bytes.append(text)?;
    bytes.push(0)?;
    put_padding(bytes, text.len() + 1)
}

/// Adds what `bind` names.
fn put_bind(bytes: &mut Bytes, interface: &[u8], version: u32, id: u32) -> Result<(), AllocError>
    requires { length interface.now + 1 < 65536 }
    ensures { OnOk result (bytes.new ≡ bytes.old
        ++ (string_bytes_of interface.now ++ (word_bytes version ++ word_bytes id))) }
{
    put_string(bytes, interface)?;
    put_word(bytes, version)?;
    put_word(bytes, id)
}

/// Adds an argument.
fn put_arg(bytes: &mut Bytes, arg: &Arg) -> Result<(), AllocError>
    requires { length (arg_bytes arg.now) < 65536 }
    ensures { OnOk result (bytes.new ≡ bytes.old ++ arg_bytes arg.now) }
{
    match arg {
        Arg::Int(value) => put_word(bytes, value.cast_unsigned()),
        Arg::Uint(value) => put_word(bytes, *value),
        Arg::Fixed(value) => put_word(bytes, value.cast_unsigned()),
        Arg::Str(text) => put_string(bytes, text.as_slice()),
        Arg::NullStr => put_word(bytes, 0),
        Arg::Object(id) => put_word(bytes, *id),
        Arg::NewId(id) => put_word(bytes, *id),
        Arg::Bind {
            interface,
            version,
            id,
        } => put_bind(bytes, interface.as_slice(), *version, *id),
        Arg::Array(content) => put_array(bytes, content.as_slice()),
        Arg::Handle => Ok(()),
    }
}

/// The bytes of all arguments.
fn body_of(alloc: Global, args: &[Arg]) -> Result<Bytes, AllocError>
    requires { length (args_bytes args.now) < 65536 }
    ensures { IfOk result (λ body. body ≡ args_bytes args.now) }
{
    let mut body = Bytes::new(alloc);
    'items: for arg in args {
        put_arg(&mut body, arg)?;
    }
    Ok(body)
}

/// The header, with the size, and the arguments.
fn message_bytes(alloc: Global, object: u32, opcode: u16, args: &[Arg]) -> Result<Bytes, AllocError>
    requires { 8 + length (args_bytes args.now) ≤ LONGEST_MESSAGE }
    ensures { IfOk result (λ bytes. bytes ≡ built object opcode args.now) }
{
    let body = body_of(alloc, args)?;
    let size = 8 + body.len() as u32;
    let mut bytes = Bytes::new(alloc);
    put_word(&mut bytes, object)?;
    put_word(&mut bytes, (size << 16) + opcode as u32)?;
    bytes.append(body.as_slice())?;
    Ok(bytes)
}

/// The message for an object with these arguments, in their order and of whatever kinds; its
/// padding is zero.
///
/// # Errors
/// Only where memory runs out.
pub fn build(alloc: Global, object: u32, opcode: u16, args: &ArgList) -> Result<Message, AllocError>
    requires { 8 + length (args_bytes args.now) ≤ LONGEST_MESSAGE }
    ensures { IfOk result (λ message. message ≡ built object opcode args.now) }
{
    let bytes = message_bytes(alloc, object, opcode, args.as_slice())?;
    Ok(Message::from_whole(bytes))
}

#[cfg(test)]
mod tests;
