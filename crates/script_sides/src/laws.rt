//! Laws of a side of a replay: each function does nothing, and its clause is the law.

ghost use Rattle.script_sides.specs.Ready.{ReadyGoesOn};

/// Between two calls a side is as one of a run that has not failed.
pub fn ready_goes_on()
    ensures { ReadyGoesOn }
{}
