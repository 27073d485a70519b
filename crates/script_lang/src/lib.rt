//! Scripts of a replay: what the lines of a script say.
#![tactic(auto)]

mod causes;
mod digits;
mod faults;
mod kinds;
mod laws;
mod limits;
mod lines;
mod link_lines;
mod names;
mod numbers;
mod other_lines;
mod own_lines;
mod peer_lines;
mod peers;
mod pieces;
mod reading;
mod rows;
mod script;
mod steps;
mod things;
mod trial;

pub use causes::{ScriptCause, ScriptRead};
pub use laws::{
    asked_is_visible, first_fault, one_step_each, only_tested, stop_ends, too_many_lines,
    trial_is_script,
};
pub use reading::read_script;
pub use script::Script;
pub use steps::{Step, StepKind, StepList};
pub use trial::trial_script;

#[cfg(test)]
mod tests;
