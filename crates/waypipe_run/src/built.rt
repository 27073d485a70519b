//! Which lines of a script the program runs.
ghost use Rattle.std.specs.Prelude.{◌≡◌};
ghost use Rattle.waypipe_run.specs.Built.{is_built, first_unbuilt};

use script_lang::{Step, StepKind};

/// The number of the first line that is read and not run, if there is one.
pub fn first_unbuilt(steps: &[Step]) -> Option<u32>
    ensures { result ≡ first_unbuilt steps.now }
{
    for step in steps {
        if !is_built(&step.what) {
            return Some(step.line);
        }
    }
    None
}

/// Whether a line is run: all are but those that replace a byte of the link.
fn is_built(what: &StepKind) -> bool
    ensures { result ≡ is_built what.now }
{
    match what {
        StepKind::Spoil { .. } => false,
        _ => true,
    }
}
