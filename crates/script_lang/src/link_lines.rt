//! Lines of connections and of the link.

ghost use Rattle.std.specs.Prelude.{◌≡◌};
ghost use Rattle.std.specs.Map.{lookup};
ghost use Rattle.std.specs.Option.{option_copied};
ghost use Rattle.std.specs.Str.{bytes_eq};
ghost use Rattle.script_lang.specs.Kinds.{count, direction, place, byte};
ghost use Rattle.script_lang.specs.Lines.{other_line};
ghost use Rattle.script_lang.specs.Pieces.{fields_behind};
ghost use Rattle.script_lang.specs.Rows.{one, three, link_rows};
ghost use Rattle.script_lang.specs.declared.steps.StepKind.TheVariants as step;

use crate::causes::ScriptCause;
use crate::numbers::is_number;
use crate::pieces::three_fields;
use crate::rows::MOST_COUNT;
use crate::steps::StepKind;
use crate::{kinds, rows};
use wp_outside::Direction;

/// What a line of a connection or of the link asks for.
pub fn link_line(word: &[u8], fields: Option<&[u8]>) -> Result<StepKind, ScriptCause>
    ensures { result ≡ other_line (option_copied fields.entry)
        (lookup (bytes_eq word.now) link_rows) }
{
    if word == b"connect".as_slice() {
        return rows::nothing(fields, StepKind::Connect);
    }
    if word == b"break".as_slice() {
        return rows::nothing(fields, StepKind::Break);
    }
    if word == b"send".as_slice() {
        let (dir, bytes) = rows::direction_and_number(fields, 1)?;
        return Ok(StepKind::Send { dir, bytes });
    }
    if word == b"recv".as_slice() {
        let (dir, bytes) = rows::direction_and_number(fields, 1)?;
        return Ok(StepKind::Recv { dir, bytes });
    }
    if word == b"up".as_slice() {
        return both(Direction::Up, fields);
    }
    if word == b"down".as_slice() {
        return both(Direction::Down, fields);
    }
    if word == b"spoil".as_slice() {
        return spoil(fields);
    }
    if word == b"cut".as_slice() {
        let (dir, bytes) = rows::direction_and_number(fields, 0)?;
        return Ok(StepKind::Cut { dir, bytes });
    }
    Err(ScriptCause::Word)
}

/// Bytes that are pushed into the link and then pulled out of it.
fn both(dir: Direction, fields: Option<&[u8]>) -> Result<StepKind, ScriptCause>
    ensures { result ≡ one count (step.Both dir) (fields_behind (option_copied fields.entry)) }
{
    let bytes = rows::number(fields, 1, MOST_COUNT)?;
    Ok(StepKind::Both { dir, bytes })
}

/// A place among the bytes that wait in the link, and the byte that shall stand there.
fn spoil(fields: Option<&[u8]>) -> Result<StepKind, ScriptCause>
    ensures { result ≡ three direction place byte step.Spoil
        (fields_behind (option_copied fields.entry)) }
{
    match three_fields(fields) {
        Some((dir, offset, digits)) if is_number(offset) => match kinds::byte(digits) {
            Some(byte) => Ok(StepKind::Spoil {
                dir: kinds::direction(dir)?,
                offset: kinds::number(offset, 0, MOST_COUNT)?,
                byte,
            }),
            None => Err(ScriptCause::Form),
        },
        _ => Err(ScriptCause::Form),
    }
}
