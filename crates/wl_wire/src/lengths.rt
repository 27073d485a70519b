//! Whether arguments fit into a message.

ghost use Rattle.std.specs.Prelude.{◌≡◌, ◌+◌, ◌-◌, ◌≤◌, ◌<◌, ◌↔◌, length, IsTrue, MatchOption};
ghost use Rattle.wl_wire.specs.Building.{word_bytes, counted_bytes, string_bytes_of, arg_bytes, args_bytes};

use crate::arg_sizes::padding_of;
use crate::arguments::Arg;
use crate::lists::ArgList;
use crate::message::LONGEST_MESSAGE;

/// The most bytes that an argument takes whose text or content is no longer than a message: beside them a length, a NUL
/// with its padding, and the two words of what `bind` names.
const LONGEST_ARG: usize = LONGEST_MESSAGE + 16;

/// How many bytes an array takes, or None for more than a message holds.
#[tactic(auto, using(crate::proofs::BuildingLemmas::length_counted, crate::proofs::BuildingLemmas::padding_small))]
fn array_len(content: &[u8]) -> Option<usize>
    ensures { MatchOption result (LONGEST_MESSAGE < length (counted_bytes content.now))
        (λ size. (size ≡ length (counted_bytes content.now)) × (size ≤ LONGEST_ARG)) }
{
    let count = content.len();
    if count > LONGEST_MESSAGE {
        None
    } else {
        Some(4 + (count + padding_of(count)))
    }
}

/// How many bytes a string takes, with its NUL.
#[tactic(auto, using(crate::proofs::BuildingLemmas::length_string, crate::proofs::BuildingLemmas::padding_small))]
fn string_len(text: &[u8]) -> Option<usize>
    ensures { MatchOption result (LONGEST_MESSAGE < length (string_bytes_of text.now))
        (λ size. (size ≡ length (string_bytes_of text.now)) × (size ≤ LONGEST_ARG - 8)) }
{
    let count = text.len();
    if count > LONGEST_MESSAGE {
        None
    } else {
        Some(4 + (count + 1 + padding_of(count + 1)))
    }
}

/// How many bytes the argument of a bind takes.
#[tactic(auto, using(crate::proofs::BuildingLemmas::length_bind))]
fn bind_len(interface: &[u8], version: u32, id: u32) -> Option<usize>
    ensures { MatchOption result (LONGEST_MESSAGE < length (arg_bytes (Arg.Bind interface.now version id)))
        (λ size. (size ≡ length (arg_bytes (Arg.Bind interface.now version id)))
        × (size ≤ LONGEST_ARG)) }
{
    match string_len(interface) {
        Some(size) => Some(size + 8),
        None => None,
    }
}

/// A word.
#[tactic(auto, using(crate::proofs::BuildingLemmas::length_word))]
fn word_len(value: u32) -> Option<usize>
    ensures { MatchOption result (LONGEST_MESSAGE < length (word_bytes value))
        (λ size. (size ≡ length (word_bytes value)) × (size ≤ LONGEST_ARG)) }
{
    Some(4)
}

/// How many bytes an argument takes, or None for more than a message holds.
fn arg_len(arg: &Arg) -> Option<usize>
    ensures { MatchOption result (LONGEST_MESSAGE < length (arg_bytes arg.now))
        (λ size. (size ≡ length (arg_bytes arg.now)) × (size ≤ LONGEST_ARG)) }
{
    match arg {
        Arg::Int(value) => word_len(value.cast_unsigned()),
        Arg::Uint(value) => word_len(*value),
        Arg::Fixed(value) => word_len(value.cast_unsigned()),
        Arg::Str(text) => string_len(text.as_slice()),
        Arg::NullStr => word_len(0),
        Arg::Object(id) => word_len(*id),
        Arg::NewId(id) => word_len(*id),
        Arg::Bind {
            interface,
            version,
            id,
        } => bind_len(interface.as_slice(), *version, *id),
        Arg::Array(content) => array_len(content.as_slice()),
        Arg::Handle => Some(0),
    }
}

/// Whether a message of these arguments has at most 65,532 bytes.
pub fn fits_message(args: &ArgList) -> bool
    ensures { IsTrue result ↔ (8 + length (args_bytes args.now) ≤ LONGEST_MESSAGE) }
{
    let mut size = 8;
    'items: for arg in args.as_slice() {
        match arg_len(arg) {
            Some(more) => size += more,
            None => return false,
        }
        if size > LONGEST_MESSAGE {
            return false;
        }
    }
    true
}
