//! Arguments of a text, by their places.

ghost use Rattle.std.specs.Prelude.{◌≡◌, codes, [], false, None, option_map, OnOk};
ghost use Rattle.wl_text.specs.Answers.{AnswersFront};
ghost use Rattle.wl_text.specs.Front.{read_view, behind};
ghost use Rattle.wl_text.specs.ArgReading.{plain, null_at, int_at, uint_at, fixed_at, quoted_at};
ghost use Rattle.wl_text.specs.ArgReading.{string_from, object_from, new_id_at, new_at, bound_at};
ghost use Rattle.wl_text.specs.ArgReading.{bind_at, array_at, handle_at, arg_at, and_arg};
ghost use Rattle.wl_text.specs.ArgReading.{arg_behind, args_at};

use crate::decimals::{number_at, signed_at};
use crate::enclosed::{Enclosure, enclosed_at};
use crate::front::behind;
use crate::text_message::TextFault;
use std::alloc::{AllocError, Global};
use wl_wire::{Arg, ArgKind, ArgList, HandleNumbers, Signature, Slot};

/// An argument, and the number of its handle if it is one.
#[derive(Drop)]
pub(crate) struct TextArg {
    arg: Arg,
    handle: Option<i32>,
}

/// Arguments, and the numbers of their handles.
#[derive(Drop)]
pub(crate) struct TextArgs {
    pub(crate) args: ArgList,
    pub(crate) handles: HandleNumbers,
}

/// An argument that is no handle.
fn plain(arg: Arg) -> TextArg
    ensures { result ≡ plain arg }
{
    TextArg { arg, handle: None }
}

/// What stands for null, where a place allows it.
fn null_at(null: bool, arg: Arg, rest: &[u8]) -> Option<(TextArg, &[u8])>
    ensures { read_view result ≡ null_at null arg rest.now }
{
    if null { Some((plain(arg), rest)) } else { None }
}

/// A signed number.
#[tactic(auto, unfolding(crate::specs::ArgReading::int_at))]
fn int_at(text: &[u8]) -> Option<(TextArg, &[u8])>
    ensures { read_view result ≡ int_at text.now }
{
    let (value, rest) = signed_at(text)?;
    Some((plain(Arg::Int(value)), rest))
}

/// An unsigned number.
#[tactic(auto, unfolding(crate::specs::ArgReading::uint_at))]
fn uint_at(text: &[u8]) -> Option<(TextArg, &[u8])>
    ensures { read_view result ≡ uint_at text.now }
{
    let (value, rest) = number_at(text)?;
    Some((plain(Arg::Uint(value)), rest))
}

/// A signed number in 1/256.
#[tactic(auto, unfolding(crate::specs::ArgReading::fixed_at))]
fn fixed_at(text: &[u8]) -> Option<(TextArg, &[u8])>
    ensures { read_view result ≡ fixed_at text.now }
{
    let (value, rest) = signed_at(text)?;
    let rest = behind(b"/256", rest)?;
    Some((plain(Arg::Fixed(value)), rest))
}

/// A string that isn't null.
#[tactic(auto, unfolding(crate::specs::ArgReading::quoted_at))]
fn quoted_at(alloc: Global, text: &[u8]) -> Result<(TextArg, &[u8]), TextFault>
    ensures { AnswersFront result (quoted_at text.now) }
{
    let (bytes, rest) = enclosed_at(alloc, Enclosure::Quotes, text)?;
    Ok((plain(Arg::Str(bytes)), rest))
}

/// A string.
fn string_at(alloc: Global, null: bool, text: &[u8]) -> Result<(TextArg, &[u8]), TextFault>
    ensures { AnswersFront result (string_from (behind (codes "null") text.now) null text.now) }
{
    match behind(b"null", text) {
        Some(rest) => given(null_at(null, Arg::NullStr, rest)),
        None => quoted_at(alloc, text),
    }
}

/// An object that isn't null.
fn some_object_at(text: &[u8]) -> Option<(TextArg, &[u8])>
    ensures { read_view result ≡ object_from None false text.now }
{
    let rest = behind(b"@", text)?;
    let (id, rest) = number_at(rest)?;
    if id == 0 {
        None
    } else {
        Some((plain(Arg::Object(id)), rest))
    }
}

/// An object.
fn object_at(null: bool, text: &[u8]) -> Option<(TextArg, &[u8])>
    ensures { read_view result ≡ object_from (behind (codes "null") text.now) null text.now }
{
    match behind(b"null", text) {
        Some(rest) => null_at(null, Arg::Object(0), rest),
        None => some_object_at(text),
    }
}

/// The id of a new object.
#[tactic(auto, unfolding(crate::specs::ArgReading::new_id_at))]
fn new_id_at(text: &[u8]) -> Option<(u32, &[u8])>
    ensures { read_view result ≡ new_id_at text.now }
{
    let rest = behind(b"new @", text)?;
    number_at(rest)
}

/// A new object of the interface that the table names.
#[tactic(auto, unfolding(crate::specs::ArgReading::new_at))]
fn new_at(text: &[u8]) -> Option<(TextArg, &[u8])>
    ensures { read_view result ≡ new_at text.now }
{
    let (id, rest) = new_id_at(text)?;
    Some((plain(Arg::NewId(id)), rest))
}

/// The version and the id of what `wl_registry.bind` names.
#[tactic(auto, unfolding(crate::specs::ArgReading::bound_at))]
fn bound_at(text: &[u8]) -> Option<(u32, u32, &[u8])>
    ensures { option_map (λ it. ((it.0, it.1), it.2.now)) result ≡ bound_at text.now }
{
    let rest = behind(b" ", text)?;
    let (version, rest) = number_at(rest)?;
    let rest = behind(b" ", rest)?;
    let (id, rest) = new_id_at(rest)?;
    Some((version, id, rest))
}

/// What `wl_registry.bind` names.
#[tactic(auto, unfolding(crate::specs::ArgReading::bind_at))]
fn bind_at(alloc: Global, text: &[u8]) -> Result<(TextArg, &[u8]), TextFault>
    ensures { AnswersFront result (bind_at text.now) }
{
    let (interface, rest) = enclosed_at(alloc, Enclosure::Quotes, text)?;
    match bound_at(rest) {
        Some((version, id, rest)) => {
            let arg = Arg::Bind {
                interface,
                version,
                id,
            };
            Ok((plain(arg), rest))
        }
        None => Err(TextFault::Form),
    }
}

/// An array.
#[tactic(auto, unfolding(crate::specs::ArgReading::array_at))]
fn array_at(alloc: Global, text: &[u8]) -> Result<(TextArg, &[u8]), TextFault>
    ensures { AnswersFront result (array_at text.now) }
{
    let (bytes, rest) = enclosed_at(alloc, Enclosure::Brackets, text)?;
    Ok((plain(Arg::Array(bytes)), rest))
}

/// A handle by its number.
#[tactic(auto, unfolding(crate::specs::ArgReading::handle_at))]
fn handle_at(text: &[u8]) -> Option<(TextArg, &[u8])>
    ensures { read_view result ≡ handle_at text.now }
{
    let rest = behind(b"fd %", text)?;
    let (number, rest) = signed_at(rest)?;
    let arg = TextArg {
        arg: Arg::Handle,
        handle: Some(number),
    };
    Some((arg, rest))
}

/// What was read without memory, as an answer.
fn given(read: Option<(TextArg, &[u8])>) -> Result<(TextArg, &[u8]), TextFault>
    ensures { AnswersFront result (read_view read.entry) }
{
    match read {
        Some(found) => Ok(found),
        None => Err(TextFault::Form),
    }
}

/// The argument of a kind.
fn arg_at(
    alloc: Global,
    kind: ArgKind,
    null: bool,
    text: &[u8],
) -> Result<(TextArg, &[u8]), TextFault>
    ensures { AnswersFront result (arg_at kind null text.now) }
{
    match kind {
        ArgKind::Int => given(int_at(text)),
        ArgKind::Uint => given(uint_at(text)),
        ArgKind::Fixed => given(fixed_at(text)),
        ArgKind::Str => string_at(alloc, null, text),
        ArgKind::Object => given(object_at(null, text)),
        ArgKind::NewId => given(new_at(text)),
        ArgKind::Bind => bind_at(alloc, text),
        ArgKind::Array => array_at(alloc, text),
        ArgKind::Handle => given(handle_at(text)),
    }
}

/// An argument for a place, behind a word.
#[tactic(auto, unfolding(crate::specs::ArgReading::arg_behind))]
fn arg_behind<'a>(
    alloc: Global,
    word: &[u8],
    slot: Slot,
    text: &'a [u8],
) -> Result<(TextArg, &'a [u8]), TextFault>
    ensures { AnswersFront result (arg_behind word.now slot text.now) }
{
    match behind(word, text) {
        Some(rest) => arg_at(alloc, slot.kind, slot.null, rest),
        None => Err(TextFault::Form),
    }
}

impl TextArgs {
    /// No arguments.
    fn new(alloc: Global) -> TextArgs
        ensures { result ≡ record { args = []; handles = [] } }
    {
        TextArgs {
            args: ArgList::new(alloc),
            handles: HandleNumbers::new(alloc),
        }
    }

    /// Adds an argument.
    fn push(&mut self, it: TextArg) -> Result<(), AllocError>
        ensures { OnOk result (self.new ≡ and_arg self.old it) }
    {
        self.args.push(it.arg)?;
        match it.handle {
            Some(number) => self.handles.push(number),
            None => Ok(()),
        }
    }
}

/// One argument for each place, with a comma between two.
pub(crate) fn args_at<'a>(
    alloc: Global,
    signature: &Signature,
    text: &'a [u8],
) -> Result<(TextArgs, &'a [u8]), TextFault>
    ensures { AnswersFront result (args_at [] signature.now.slots text.now) }
{
    let mut said = TextArgs::new(alloc);
    let mut rest = text;
    let mut word: &[u8] = b"";
    'slots: for i in 0..signature.len() {
        let (it, after) = arg_behind(alloc, word, signature.slot(i), rest)?;
        said.push(it)?;
        rest = after;
        word = b", ";
    }
    Ok((said, rest))
}
