//! Lines of a peer's own files, pipes and handles.

ghost use Rattle.std.specs.Prelude.{◌≡◌, option_map};
ghost use Rattle.std.specs.Map.{lookup};
ghost use Rattle.std.specs.Option.{option_copied};
ghost use Rattle.std.specs.Str.{bytes_eq};
ghost use Rattle.script_lang.specs.Kinds.{number, own, size, received, place, count, word};
ghost use Rattle.script_lang.specs.Pieces.{fields_behind};
ghost use Rattle.script_lang.specs.Rows.{one, two, four, own_rows, made, both, ranged};
ghost use Rattle.script_lang.specs.declared.steps.StepKind.TheVariants as step;

use crate::causes::ScriptCause;
use crate::numbers::{is_number, is_signed};
use crate::pieces::four_fields;
use crate::rows::MOST_COUNT;
use crate::steps::StepKind;
use crate::{kinds, rows};
use wp_outside::Side;

/// The most messages that a line may wait for.
const MOST_MESSAGES: u32 = 1_000_000;

/// What a line of a peer's own handles asks for, by the word behind the peer and the fields behind
/// the word; None for another word.
pub fn own_line(
    peer: Side,
    first: &[u8],
    fields: Option<&[u8]>,
) -> Option<Result<StepKind, ScriptCause>>
    ensures { result ≡ option_map (λ row. row (fields_behind (option_copied fields.entry)))
        (lookup (bytes_eq first.now) (own_rows peer)) }
{
    if first == b"file".as_slice() {
        return Some(file(peer, fields));
    }
    if first == b"grow".as_slice() {
        return Some(grow(peer, fields));
    }
    if first == b"fill".as_slice() {
        return Some(fill(peer, fields));
    }
    if first == b"pipe".as_slice() {
        return Some(pipe(peer, fields));
    }
    if first == b"give".as_slice() {
        return Some(give(peer, fields));
    }
    if first == b"end".as_slice() {
        return Some(end(peer, fields));
    }
    if first == b"shut".as_slice() {
        return Some(shut(peer, fields));
    }
    if first == b"await".as_slice() {
        return Some(await_messages(peer, fields));
    }
    None
}

fn file(peer: Side, fields: Option<&[u8]>) -> Result<StepKind, ScriptCause>
    ensures { result ≡ two (own peer) size (step.File peer)
        (fields_behind (option_copied fields.entry)) }
{
    let (number, size) = rows::own_and_size(peer, fields)?;
    Ok(StepKind::File { peer, number, size })
}

fn grow(peer: Side, fields: Option<&[u8]>) -> Result<StepKind, ScriptCause>
    ensures { result ≡ two (own peer) size (step.Grow peer)
        (fields_behind (option_copied fields.entry)) }
{
    let (number, size) = rows::own_and_size(peer, fields)?;
    Ok(StepKind::Grow { peer, number, size })
}

/// A value in words of a file: the first word, and how many.
fn fill(peer: Side, fields: Option<&[u8]>) -> Result<StepKind, ScriptCause>
    ensures { result ≡ four (own peer) place count word (step.Fill peer)
        (fields_behind (option_copied fields.entry)) }
{
    match four_fields(fields) {
        Some((number, first, count, value))
            if is_signed(number) && is_number(first) && is_number(count) && is_number(value) => {
            fill_words(peer, number, first, count, value)
        }
        _ => Err(ScriptCause::Form),
    }
}

/// The same by fields that have their forms.
fn fill_words(
    peer: Side,
    number: &[u8],
    first: &[u8],
    words: &[u8],
    value: &[u8],
) -> Result<StepKind, ScriptCause>
    ensures { result ≡ made (λ it. step.Fill peer it.0 it.1.0 it.1.1.0 it.1.1.1)
        (both (ranged (own peer) number.now) (both (ranged place first.now)
        (both (ranged count words.now) (ranged word value.now)))) }
{
    Ok(StepKind::Fill {
        peer,
        number: kinds::own(peer, number)?,
        first: kinds::number(first, 0, MOST_COUNT)?,
        count: kinds::number(words, 1, MOST_COUNT)?,
        value: kinds::word(value)?,
    })
}

fn pipe(peer: Side, fields: Option<&[u8]>) -> Result<StepKind, ScriptCause>
    ensures { result ≡ one (own peer) (step.Pipe peer)
        (fields_behind (option_copied fields.entry)) }
{
    let number = rows::own(peer, fields)?;
    Ok(StepKind::Pipe { peer, number })
}

fn give(peer: Side, fields: Option<&[u8]>) -> Result<StepKind, ScriptCause>
    ensures { result ≡ one (own peer) (step.Give peer)
        (fields_behind (option_copied fields.entry)) }
{
    let number = rows::own(peer, fields)?;
    Ok(StepKind::Give { peer, number })
}

fn end(peer: Side, fields: Option<&[u8]>) -> Result<StepKind, ScriptCause>
    ensures { result ≡ one received (step.End peer) (fields_behind (option_copied fields.entry)) }
{
    let pipe = rows::received(fields)?;
    Ok(StepKind::End { peer, pipe })
}

fn shut(peer: Side, fields: Option<&[u8]>) -> Result<StepKind, ScriptCause>
    ensures { result ≡ one (own peer) (step.Shut peer)
        (fields_behind (option_copied fields.entry)) }
{
    let number = rows::own(peer, fields)?;
    Ok(StepKind::Shut { peer, number })
}

fn await_messages(peer: Side, fields: Option<&[u8]>) -> Result<StepKind, ScriptCause>
    ensures { result ≡ one (number 0 1000000) (step.Await peer)
        (fields_behind (option_copied fields.entry)) }
{
    let count = rows::number(fields, 0, MOST_MESSAGES)?;
    Ok(StepKind::Await { peer, count })
}
