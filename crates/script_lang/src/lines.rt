//! One line of a script.

ghost use Rattle.std.specs.Prelude.{◌≡◌, if◌then◌else◌};
ghost use Rattle.std.specs.List.{list_all};
ghost use Rattle.std.specs.Option.{option_copied};
ghost use Rattle.script_lang.specs.Lines.{is_skipped, asked, asked_by, peer_line};
ghost use Rattle.wl_text.specs.Enclosed.{is_shown};
ghost use Rattle.script_lang.specs.declared.causes.ScriptCause.TheVariants.{Text};
ghost use Rattle.script_lang.specs.Reading.{Read};

use crate::causes::ScriptCause;
use crate::faults::LineFault;
use crate::other_lines::other_line;
use crate::peer_lines::peer_line;
use crate::pieces::cut_at;
use crate::steps::StepKind;
use std::alloc::Global;
use wl_text::text_is_visible;
use wp_outside::Side;

/// What a line that isn't skipped asks for, whatever stood before it.
pub fn asked(alloc: Global, line: &[u8]) -> Result<StepKind, LineFault>
    ensures { Read result (asked line.now) }
{
    // All lines that ask for something are visible ASCII, so the bytes of the others alone are
    // tested.
    text_is_visible();
    let (word, rest) = cut_at(line, b' ');
    match asked_by(alloc, word, rest) {
        Ok(what) => Ok(what),
        Err(LineFault::Cause(cause)) => Err(LineFault::Cause(first_cause(line, cause))),
        Err(LineFault::Memory) => Err(LineFault::Memory),
    }
}

/// The first cause for which a line is none: its bytes, or else this one.
fn first_cause(line: &[u8], other: ScriptCause) -> ScriptCause
    ensures { result ≡ (if list_all is_shown line.now then other else Text) }
{
    if is_text(line) {
        other
    } else {
        ScriptCause::Text
    }
}

/// Whether all bytes are visible ASCII characters or spaces.
fn is_text(line: &[u8]) -> bool
    ensures { result ≡ list_all is_shown line.now }
{
    line.iter().all(|byte| *byte >= b' ' && *byte <= b'~')
}

/// Whether a line is empty or a comment.
pub fn is_skipped(line: &[u8]) -> bool
    ensures { result ≡ is_skipped line.now }
{
    match line {
        [] => true,
        [first, ..] => *first == b'#',
    }
}

/// What a first word and what stands behind its space ask for.
fn asked_by(alloc: Global, word: &[u8], rest: Option<&[u8]>) -> Result<StepKind, LineFault>
    ensures { Read result (asked_by word.now (option_copied rest.entry)) }
{
    if word == b"app".as_slice() {
        return of_peer(alloc, Side::Near, rest);
    }
    if word == b"comp".as_slice() {
        return of_peer(alloc, Side::Far, rest);
    }
    Ok(other_line(word, rest)?)
}

/// A line of a peer; the peer alone asks for nothing.
fn of_peer(alloc: Global, peer: Side, rest: Option<&[u8]>) -> Result<StepKind, LineFault>
    ensures { Read result (peer_line peer (option_copied rest.entry)) }
{
    match rest {
        Some(rest) => peer_line(alloc, peer, rest),
        None => Err(LineFault::Cause(ScriptCause::Form)),
    }
}
