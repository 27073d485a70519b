//! What a run of both proxies of a pair is by the lines of a script, and what holds of each run.
#![tactic(auto)]

mod laws;

pub use laws::{
    calls_compose, calls_fail, calls_show, calls_work, drained_brings_all, faults_are_caused,
    orders_are_allowed, rounds_end, runs_agree, runs_keep, runs_receive, wrong_faults, wrong_runs,
};
