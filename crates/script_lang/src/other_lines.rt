//! Lines that begin with no peer.

ghost use Rattle.std.specs.Prelude.{◌≡◌};
ghost use Rattle.std.specs.Map.{lookup};
ghost use Rattle.std.specs.Option.{option_copied};
ghost use Rattle.std.specs.Str.{bytes_eq};
ghost use Rattle.script_lang.specs.Lines.{other_line};
ghost use Rattle.script_lang.specs.Rows.{other_rows};

use crate::causes::ScriptCause;
use crate::link_lines::link_line;
use crate::rows;
use crate::rows::MOST_COUNT;
use crate::steps::StepKind;

/// What a line without a peer in front asks for, by its first word and what stands behind.
pub fn other_line(word: &[u8], fields: Option<&[u8]>) -> Result<StepKind, ScriptCause>
    ensures { result ≡ other_line (option_copied fields.entry)
        (lookup (bytes_eq word.now) other_rows) }
{
    if word == b"take".as_slice() {
        let (peer, bytes) = rows::who_and_count(fields)?;
        return Ok(StepKind::Take { peer, bytes });
    }
    if word == b"load".as_slice() {
        let words = rows::number(fields, 1, MOST_COUNT)?;
        return Ok(StepKind::Load { words });
    }
    if word == b"close".as_slice() {
        let peer = rows::who(fields)?;
        return Ok(StepKind::Close { peer });
    }
    if word == b"settle".as_slice() {
        return rows::nothing(fields, StepKind::Settle);
    }
    if word == b"drain".as_slice() {
        let bytes = rows::number(fields, 1, MOST_COUNT)?;
        return Ok(StepKind::Drain { bytes });
    }
    if word == b"stop".as_slice() {
        return rows::nothing(fields, StepKind::Stop);
    }
    link_line(word, fields)
}
