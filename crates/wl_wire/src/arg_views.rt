//! The arguments of a message, seen in its bytes.

ghost use Rattle.std.specs.Prelude.{◌≡◌, ◌+◌, ◌≤◌, length, take, drop, Ok, IfOk, IsOk, false};
ghost use Rattle.std.specs.Int.{cast_signed, w32};
ghost use Rattle.wl_wire.specs.Arguments.{IsArg, IsWord, IsSigned};
ghost use Rattle.wl_wire.specs.ArgFaults.{word_size, object_size, array_size, string_size, with_two_words, arg_size};
ghost use Rattle.wl_wire.specs.ArgSights.{seen_arg, HasNoBytes};

use crate::arguments::Arg;
use crate::lists::Bytes;
use crate::message::word_from;
use crate::signature::{ArgKind, Slot};
use std::alloc::{AllocError, Global};

/// One argument of a message, as `Arg` has it, whose bytes stand in the message.
#[derive(Clone, Copy, Debug)]
pub enum ArgView<'a> {
    /// A signed number.
    Int(i32),
    /// An unsigned number.
    Uint(u32),
    /// A signed number in 1/256.
    Fixed(i32),
    /// The bytes of a string before its NUL, whatever they are.
    Str(&'a [u8]),
    /// The null string.
    NullStr,
    /// The id of an object, 0 for null.
    Object(u32),
    /// The id of a new object.
    NewId(u32),
    /// A new object, as `wl_registry.bind` names it.
    Bind {
        /// The bytes of the interface's name.
        interface: &'a [u8],
        /// The version that is bound.
        version: u32,
        /// The id of the new object.
        id: u32,
    },
    /// The bytes of an array.
    Array(&'a [u8]),
    /// A file descriptor, which travels beside the bytes.
    Handle,
}

impl<'a> ArgView<'a> {
    /// The argument with a copy of its bytes. Only a string, an array and what `bind` names take
    /// memory.
    ///
    /// # Errors
    /// Only where memory runs out.
    pub fn to_arg(self, alloc: Global) -> Result<Arg, AllocError>
        ensures value { IfOk result (λ arg. arg ≡ seen_arg self.entry) }
        ensures small { HasNoBytes self.entry → IsOk result }
    {
        match self {
            ArgView::Int(value) => Ok(Arg::Int(value)),
            ArgView::Uint(value) => Ok(Arg::Uint(value)),
            ArgView::Fixed(value) => Ok(Arg::Fixed(value)),
            ArgView::Str(text) => Ok(Arg::Str(Bytes::from_slice(alloc, text)?)),
            ArgView::NullStr => Ok(Arg::NullStr),
            ArgView::Object(id) => Ok(Arg::Object(id)),
            ArgView::NewId(id) => Ok(Arg::NewId(id)),
            ArgView::Bind {
                interface,
                version,
                id,
            } => Ok(Arg::Bind {
                interface: Bytes::from_slice(alloc, interface)?,
                version,
                id,
            }),
            ArgView::Array(content) => Ok(Arg::Array(Bytes::from_slice(alloc, content)?)),
            ArgView::Handle => Ok(Arg::Handle),
        }
    }
}

/// The word of an argument that is one word.
fn word_view(bytes: &[u8], size: usize) -> u32
    requires { word_size bytes.now ≡ Ok size }
    ensures word { IsWord (take size bytes.now) result }
    ensures signed { IsSigned (take size bytes.now) (cast_signed w32 result) }
{
    word_from(bytes, 0)
}

fn object_view(bytes: &[u8], null: bool, size: usize) -> ArgView<'_>
    requires { object_size null bytes.now ≡ Ok size }
    ensures { IsArg ArgKind.Object null (take size bytes.now) (seen_arg result) }
{
    ArgView::Object(word_from(bytes, 0))
}

/// So many bytes behind the length.
fn counted(bytes: &[u8], count: usize) -> &[u8]
    requires { 4 + count ≤ length bytes.now }
    ensures { result.now ≡ take count (drop 4 bytes.now) }
{
    let behind = bytes.split_at(4).1;
    behind.split_at(count).0
}

fn array_view(bytes: &[u8], size: usize) -> ArgView<'_>
    requires { array_size bytes.now ≡ Ok size }
    ensures { IsArg ArgKind.Array false (take size bytes.now) (seen_arg result) }
{
    let count = word_from(bytes, 0) as usize;
    ArgView::Array(counted(bytes, count))
}

fn string_view(bytes: &[u8], null: bool, size: usize) -> ArgView<'_>
    requires { string_size null bytes.now ≡ Ok size }
    ensures { IsArg ArgKind.Str null (take size bytes.now) (seen_arg result) }
{
    let count = word_from(bytes, 0) as usize;
    if count == 0 {
        return ArgView::NullStr;
    }
    ArgView::Str(counted(bytes, count - 1))
}

fn bind_view(bytes: &[u8], size: usize) -> ArgView<'_>
    requires { with_two_words (string_size false bytes.now) bytes.now ≡ Ok size }
    ensures { IsArg ArgKind.Bind false (take size bytes.now) (seen_arg result) }
{
    let count = word_from(bytes, 0) as usize;
    let version = word_from(bytes, size - 8);
    let id = word_from(bytes, size - 4);
    ArgView::Bind {
        interface: counted(bytes, count - 1),
        version,
        id,
    }
}

/// The argument at the front, which takes so many bytes.
pub(crate) fn arg_view(slot: Slot, bytes: &[u8], size: usize) -> ArgView<'_>
    requires { arg_size slot.kind slot.null bytes.now ≡ Ok size }
    ensures { IsArg slot.kind slot.null (take size bytes.now) (seen_arg result) }
{
    match slot.kind {
        ArgKind::Int => ArgView::Int(word_view(bytes, size).cast_signed()),
        ArgKind::Uint => ArgView::Uint(word_view(bytes, size)),
        ArgKind::Fixed => ArgView::Fixed(word_view(bytes, size).cast_signed()),
        ArgKind::Str => string_view(bytes, slot.null, size),
        ArgKind::Object => object_view(bytes, slot.null, size),
        ArgKind::NewId => ArgView::NewId(word_view(bytes, size)),
        ArgKind::Bind => bind_view(bytes, size),
        ArgKind::Array => array_view(bytes, size),
        ArgKind::Handle => ArgView::Handle,
    }
}
