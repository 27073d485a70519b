//! Reading a script.

ghost use Rattle.std.specs.Prelude.{◌≡◌, ◌≤◌, length, OnOk};
ghost use Rattle.script_lang.specs.Grammar.{ReadsScript, steps_of, steps_from, line_of};
ghost use Rattle.script_lang.specs.Grammar.{names_after};
ghost use Rattle.script_lang.specs.Names.{no_names};
ghost use Rattle.script_lang.specs.Pieces.{lines};
ghost use Rattle.script_lang.specs.Reading.{Read, Added};
ghost use Rattle.script_lang.specs.declared.limits.TheConstants.{MOST_LINES};

use crate::causes::ScriptRead;
use crate::faults::LineFault;
use crate::limits::MOST_LINES;
use crate::lines::{asked, is_skipped};
use crate::peers::Peers;
use crate::pieces::{count_lines, next_line};
use crate::script::Script;
use crate::steps::{Step, StepKind, StepList};
use std::alloc::Global;

/// Reads a script.
///
/// # Errors
/// `Lines` exactly where there are more than 200,000 lines; else `Fault` with the first line that
/// is no line of a script, and why; `Memory` where memory runs out. `NotBuilt` is never the cause.
#[tactic(auto, unfolding(crate::specs::Grammar::steps_of))]
pub fn read_script(alloc: Global, bytes: &[u8]) -> Result<Script, ScriptRead>
    ensures exact { ReadsScript result (steps_of bytes.now) }
{
    if count_lines(bytes) > MOST_LINES {
        return Err(ScriptRead::Lines);
    }
    read_lines(alloc, bytes)
}

/// Reads the lines of a script, of which there are no more than there may be.
fn read_lines(alloc: Global, text: &[u8]) -> Result<Script, ScriptRead>
    requires { length (lines text.now) ≤ MOST_LINES }
    ensures { ReadsScript result (steps_from no_names 1 (lines text.now)) }
{
    let mut peers = Peers::new(alloc);
    let mut steps = StepList::new(alloc);
    let mut line = 1u32;
    let mut rest = text;
    while !rest.is_empty() {
        let (first, others) = next_line(rest);
        add_line(alloc, &mut peers, &mut steps, line, first)?;
        line += 1;
        rest = others;
    }
    Ok(Script { steps })
}

/// Adds what a line asks for, where it isn't skipped.
fn add_line(
    alloc: Global,
    peers: &mut Peers,
    steps: &mut StepList,
    line: u32,
    text: &[u8],
) -> Result<(), ScriptRead>
    ensures steps { Added result steps.old steps.new line (line_of peers.old text.now) }
    ensures names { OnOk result (peers.new ≡ names_after peers.old (line_of peers.old text.now)) }
{
    match read_line(alloc, peers, text) {
        Ok(None) => Ok(()),
        Ok(Some(what)) => Ok(steps.push(Step { line, what })?),
        Err(LineFault::Cause(cause)) => Err(ScriptRead::Fault { line, cause }),
        Err(LineFault::Memory) => Err(ScriptRead::Memory),
    }
}

/// Reads a line behind lines that leave these names, and keeps what it makes. A line that is
/// skipped asks for nothing.
fn read_line(alloc: Global, peers: &mut Peers, text: &[u8]) -> Result<Option<StepKind>, LineFault>
    ensures step { Read result (line_of peers.old text.now) }
    ensures names { OnOk result (peers.new ≡ names_after peers.old (line_of peers.old text.now)) }
{
    if is_skipped(text) {
        return Ok(None);
    }
    let what = asked(alloc, text)?;
    match peers.fault(&what) {
        Some(cause) => Err(LineFault::Cause(cause)),
        None => {
            peers.keep(&what)?;
            Ok(Some(what))
        }
    }
}
