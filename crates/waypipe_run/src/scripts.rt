//! What the program answers to a script.

ghost use Rattle.std.specs.Prelude.{◌≡◌, ◌⊎◌, ◌≤◌, List, ℕ, IfOk, OnErr};
ghost use Rattle.script_lang.specs.Grammar.{ReadsScript, steps_of};
ghost use Rattle.script_lang.specs.declared.steps.Step.{Step};
ghost use Rattle.script_replay.specs.Outcome.{Replays};
ghost use Rattle.script_replay.specs.Standing.{NothingOpened};
ghost use Rattle.wp_outside.specs.Lines.{Line, Same};
ghost use Rattle.pair_report.specs.Report.{report_of, told_of};
ghost use Rattle.waypipe_run.specs.Built.{first_unbuilt};
ghost use Rattle.waypipe_run.specs.Endings.{EndsReport};
ghost use Rattle.waypipe_run.specs.Parts.{RepliesToScript};
ghost use Rattle.waypipe_run.specs.Texts.{script_text};
ghost use Rattle.waypipe_run.specs.Top.{IsScript, RepliesToText, Reported, TrialReported};

use crate::built::first_unbuilt;
use crate::endings::end_report;
use crate::replies::{Reply, alone, limited};
use crate::status::Status;
use crate::texts::script_text;
use half_model::Limit;
use pair_report::{Got, ReportOptions, report};
use proxy_trail::PairRecord;
use script_lang::{Script, ScriptCause, ScriptRead, read_script, trial_script};
use script_replay::{let_go, replay};
use std::alloc::{AllocError, Global};
use wl_wire::Bytes;
use wp_outside::LinkStore;

/// Replays the script that a text is, and reports what these options ask for.
#[tactic(auto, using(crate::proofs::AnswerLemmas::on_still))]
pub fn answer_text<L: LinkStore>(
    alloc: Global,
    options: ReportOptions,
    text: Bytes,
    line: &mut L,
) -> Result<Reply, AllocError>
    requires { NothingOpened (L.line line.old) }
    ensures reply { IfOk result (λ reply. RepliesToText options reply.status text
        (L.line line.old) (L.line line.new) reply.text) }
    ensures untouched { OnErr result (Same (L.line line.old) (L.line line.new)
        ⊎ ((steps : List Step) × IsScript text steps)) }
{
    match script_of(alloc, text) {
        Ok(script) => answer_script(alloc, options, script, line),
        Err(ScriptRead::Fault { line, cause }) => refused(alloc, line, cause),
        Err(ScriptRead::Lines) => limited(alloc, Limit::Lines),
        Err(ScriptRead::Memory) => Err(AllocError),
    }
}

/// Replays the script of a trial of so many rounds, and makes a long report without messages.
pub fn answer_trial<L: LinkStore>(
    alloc: Global,
    rounds: u32,
    line: &mut L,
) -> Result<Reply, AllocError>
    requires low { 1 ≤ rounds }
    requires high { rounds ≤ 500 }
    requires nothing { NothingOpened (L.line line.old) }
    ensures { IfOk result (λ reply. TrialReported rounds reply.status
        (L.line line.new) reply.text) }
{
    let options = ReportOptions {
        long: true,
        got: Got::LeftOut,
    };
    let script = trial_script(alloc, rounds)?;
    answer_played(alloc, options, script, line)
}

/// Reads a script, and drops its text.
fn script_of(alloc: Global, text: Bytes) -> Result<Script, ScriptRead>
    ensures { ReadsScript result (steps_of text) }
{
    read_script(alloc, text.as_slice())
}

/// A line for which a text is not replayed.
fn refused(alloc: Global, line: u32, cause: ScriptCause) -> Result<Reply, AllocError>
    ensures status { IfOk result (λ reply. reply.status ≡ Status.Script line cause) }
    ensures text { IfOk result (λ reply. reply.text ≡ script_text line cause) }
{
    let text = script_text(alloc, line, cause)?;
    alone(alloc, Status::Script { line, cause }, text.as_str())
}

/// Replays a script, if all its lines are run.
#[tactic(auto, using(crate::proofs::AnswerLemmas::on_still, crate::proofs::AnswerLemmas::on_run))]
fn answer_script<L: LinkStore>(
    alloc: Global,
    options: ReportOptions,
    script: Script,
    line: &mut L,
) -> Result<Reply, AllocError>
    requires { NothingOpened (L.line line.old) }
    ensures reply { IfOk result (λ reply. RepliesToScript options script.steps reply.status
        (L.line line.old) (L.line line.new) reply.text) }
    ensures untouched { OnErr result (Same (L.line line.old) (L.line line.new)
        ⊎ (first_unbuilt script.steps ≡ None)) }
{
    match first_unbuilt(script.steps.as_slice()) {
        Some(line) => refused(alloc, line, ScriptCause::NotBuilt),
        None => answer_played(alloc, options, script, line),
    }
}

/// The pair of proxies that a script's replay leaves; the script is dropped.
fn replay_of<L: LinkStore>(
    alloc: Global,
    script: Script,
    line: &mut L,
) -> Result<PairRecord, AllocError>
    requires { NothingOpened (L.line line.old) }
    ensures { IfOk result (λ pair. Replays script.steps (L.line line.new) pair) }
{
    replay(alloc, &script, line)
}

/// Replays a script, all of whose lines are run, and reports what came of it.
fn answer_played<L: LinkStore>(
    alloc: Global,
    options: ReportOptions,
    script: Script,
    line: &mut L,
) -> Result<Reply, AllocError>
    requires { NothingOpened (L.line line.old) }
    ensures { IfOk result (λ reply. Reported options script.steps reply.status
        (L.line line.new) reply.text) }
{
    match replay_of(alloc, script, line) {
        Ok(pair) => {
            let reply = answer_replayed(alloc, options, &pair);
            let_go(pair);
            reply
        }
        Err(error) => Err(error),
    }
}

/// The report of a replay, and its last line.
fn answer_replayed(
    alloc: Global,
    options: ReportOptions,
    pair: &PairRecord,
) -> Result<Reply, AllocError>
    ensures { IfOk result (λ reply. EndsReport pair.now.end reply.status
        (report_of options (told_of pair.now)) reply.text) }
{
    let text = report(alloc, options, pair)?;
    end_report(alloc, text, pair.end)
}
