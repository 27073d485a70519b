//! Laws of scripts: each function does nothing, and its clause is the law.

ghost use Rattle.script_lang.specs.Laws.{OneStepEach, FirstFault, TooManyLines, AskedIsVisible};
ghost use Rattle.script_lang.specs.Laws.{OnlyTested, StopEnds};
ghost use Rattle.script_lang.specs.Trial.{TrialIsScript};

use wl_tables::{interface_tells_name, opcode_tells_name};
use wl_text::text_is_visible;

/// Each line that isn't skipped has its one step, in order, and no other step is there.
pub fn one_step_each()
    ensures { OneStepEach }
{
    text_is_visible();
}

/// A script is refused for the first line that is none: the lines before it are a script, and with
/// it they are none.
pub fn first_fault()
    ensures { FirstFault }
{
    text_is_visible();
}

/// A script has too many lines exactly above 200,000, whatever they hold.
pub fn too_many_lines()
    ensures { TooManyLines }
{
    text_is_visible();
}

/// A line that asks for something is visible ASCII.
pub fn asked_is_visible()
    ensures { AskedIsVisible }
{
    text_is_visible();
}

/// Reading never answers that a line isn't built, and no script is refused for want of memory
/// alone.
pub fn only_tested()
    ensures { OnlyTested }
{
    text_is_visible();
}

/// What stands behind a `stop` puts nothing on the wires.
pub fn stop_ends()
    ensures { StopEnds }
{}

/// The text of each trial is a script.
pub fn trial_is_script()
    ensures { TrialIsScript }
{
    opcode_tells_name();
    interface_tells_name();
}
