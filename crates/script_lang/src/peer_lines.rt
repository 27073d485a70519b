//! Lines of the application and of the compositor.

ghost use Rattle.std.specs.Prelude.{◌≡◌, ◌==◌, Some};
ghost use Rattle.std.specs.List.{list_any};
ghost use Rattle.script_lang.specs.Lines.{peer_line, message_line};
ghost use Rattle.script_lang.specs.Reading.{Read};

use crate::causes::ScriptCause;
use crate::faults::LineFault;
use crate::own_lines::own_line;
use crate::pieces::cut_at;
use crate::rows;
use crate::steps::StepKind;
use std::alloc::Global;
use wl_tables::Way;
use wl_text::{TextFault, read_message};
use wp_outside::Side;

/// What a line of a peer asks for, by what stands behind `app ` or `comp `.
pub fn peer_line(alloc: Global, peer: Side, rest: &[u8]) -> Result<StepKind, LineFault>
    ensures { Read result (peer_line peer (Some rest.now)) }
{
    let (word, fields) = cut_at(rest, b' ');
    if word == b"hex".as_slice() {
        let bytes = rows::bytes(alloc, fields)?;
        return Ok(StepKind::Hex { peer, bytes });
    }
    if word == b"put".as_slice() {
        let (pipe, bytes) = rows::received_and_bytes(alloc, fields)?;
        return Ok(StepKind::Put { peer, pipe, bytes });
    }
    match own_line(peer, word, fields) {
        Some(answer) => Ok(answer?),
        None => message_line(alloc, peer, word, rest),
    }
}

/// A message that the peer sends, where the first field holds an `@`.
fn message_line(alloc: Global, peer: Side, word: &[u8], text: &[u8]) -> Result<StepKind, LineFault>
    ensures { Read result (message_line peer word.now text.now) }
{
    if !word.contains(&b'@') {
        return Err(LineFault::Cause(ScriptCause::Word));
    }
    match read_message(alloc, text, Way::of_peer(peer)) {
        Ok(message) => Ok(StepKind::Say { peer, message }),
        Err(TextFault::Form) => Err(LineFault::Cause(ScriptCause::Message)),
        Err(TextFault::Memory) => Err(LineFault::Memory),
    }
}
