//! Rows of the language of scripts: what each line asks for, and why others are refused.

use super::*;
use std::alloc::Global;

mod causes;
mod messages;
mod names;
mod steps;
mod trial;
mod whole;

/// What reading a script answers, without its steps.
fn read(alloc: Global, script: &[u8]) -> Result<(), ScriptRead> {
    match read_script(alloc, script) {
        Ok(_) => Ok(()),
        Err(fault) => Err(fault),
    }
}

/// The answer for the first line that is none and its cause, or for a script.
fn answer(fault: Option<(u32, ScriptCause)>) -> Result<(), ScriptRead> {
    match fault {
        Some((line, cause)) => Err(ScriptRead::Fault { line, cause }),
        None => Ok(()),
    }
}

/// What the last line of a script asks for, with its number.
fn last_step(alloc: Global, script: &str) -> Option<Step> {
    match read_script(alloc, script.as_bytes()) {
        Ok(script) => script.steps.into_vec().pop(),
        Err(_) => None,
    }
}

/// Whether the last line of a script asks for this.
fn asks(alloc: Global, script: &str, what: StepKind) -> bool {
    match last_step(alloc, script) {
        Some(step) => step.what == what,
        None => false,
    }
}
