//! What the program answers, before it is written.

ghost use Rattle.std.specs.Prelude.{◌≡◌, ◌⊎◌, IfOk, OnErr};
ghost use Rattle.script_replay.specs.Standing.{NothingOpened};
ghost use Rattle.wp_outside.specs.Lines.{Same};
ghost use Rattle.waypipe_run.specs.Moving.{TookNoMore};
ghost use Rattle.waypipe_run.specs.Parts.{RepliesToBytes, IsRun};
ghost use Rattle.waypipe_run.specs.Reports.{options_of};
ghost use Rattle.waypipe_run.specs.Top.{Replies, MayReplay, MayTry, outside};
ghost use Rattle.waypipe_run.specs.Words.{AsksInput};

use crate::listings::answer_stream;
use crate::reading::{ReadFault, read_all};
use crate::replies::{Reply, alone, limited};
use crate::scripts::{answer_text, answer_trial};
use crate::status::Status;
use crate::texts::{read_failed_text, usage_text};
use crate::words::{Command, Task, command_of};
use half_model::Limit;
use pair_report::{Got, ReportOptions};
use std::alloc::{AllocError, Global};
use wl_wire::Bytes;
use wp_outside::{LinkStore, Source};

/// Does what the words ask for.
///
/// # Errors
/// Only where memory runs out.
#[tactic(auto, using(crate::proofs::MovingLemmas::took_none, crate::proofs::AnswerLemmas::on_still))]
pub fn answer<S: Source, L: LinkStore>(
    alloc: Global,
    words: &[String],
    input: &mut S,
    line: &mut L,
) -> Result<Reply, AllocError>
    requires { NothingOpened (L.line line.old) }
    ensures reply { IfOk result (λ reply. Replies reply.status words.now
        (outside (S.left input.old) (S.faults input.old) (L.line line.old))
        (outside (S.left input.new) (S.faults input.new) (L.line line.new)) reply.text) }
    ensures bounded { TookNoMore (S.left input.old) (S.left input.new) }
    ensures untouched { OnErr result (Same (L.line line.old) (L.line line.new)
        ⊎ (MayReplay words.now
        (outside (S.left input.old) (S.faults input.old) (L.line line.old))
        (outside (S.left input.new) (S.faults input.new) (L.line line.new))
        ⊎ MayTry words.now
        (outside (S.left input.old) (S.faults input.old) (L.line line.old))
        (outside (S.left input.new) (S.faults input.new) (L.line line.new)))) }
{
    match command_of(words) {
        Some(Command::Input(task)) => answer_input(alloc, task, words, input, line),
        Some(Command::Trial { rounds }) => answer_trial(alloc, rounds, line),
        None => alone(alloc, Status::Usage, usage_text()),
    }
}

/// Reads the input to its end, and does with it what is asked for.
#[tactic(auto, using(crate::proofs::AnswerLemmas::on_still))]
fn answer_input<S: Source, L: LinkStore>(
    alloc: Global,
    task: Task,
    words: &[String],
    input: &mut S,
    line: &mut L,
) -> Result<Reply, AllocError>
    requires asks { AsksInput task words.now }
    requires nothing { NothingOpened (L.line line.old) }
    ensures reply { IfOk result (λ reply. Replies reply.status words.now
        (outside (S.left input.old) (S.faults input.old) (L.line line.old))
        (outside (S.left input.new) (S.faults input.new) (L.line line.new)) reply.text) }
    ensures bounded { TookNoMore (S.left input.old) (S.left input.new) }
    ensures untouched { OnErr result (Same (L.line line.old) (L.line line.new)
        ⊎ MayReplay words.now
        (outside (S.left input.old) (S.faults input.old) (L.line line.old))
        (outside (S.left input.new) (S.faults input.new) (L.line line.new))) }
{
    match read_all(alloc, input) {
        Ok(bytes) => answer_bytes(alloc, task, bytes, line),
        Err(ReadFault::Failed) => alone(alloc, Status::ReadFault, read_failed_text()),
        Err(ReadFault::TooLong) => limited(alloc, Limit::Input),
        Err(ReadFault::Memory) => Err(AllocError),
    }
}

/// Does with all bytes of the input what is asked for.
#[tactic(auto, using(crate::proofs::AnswerLemmas::on_still))]
fn answer_bytes<L: LinkStore>(
    alloc: Global,
    task: Task,
    bytes: Bytes,
    line: &mut L,
) -> Result<Reply, AllocError>
    requires { NothingOpened (L.line line.old) }
    ensures reply { IfOk result (λ reply. RepliesToBytes task bytes reply.status
        (L.line line.old) (L.line line.new) reply.text) }
    ensures untouched { OnErr result (Same (L.line line.old) (L.line line.new)
        ⊎ IsRun task bytes) }
{
    match task {
        Task::Replay { texts, long } => answer_text(alloc, options_of(texts, long), bytes, line),
        Task::Frames => answer_stream(alloc, bytes),
    }
}

/// What the report of a replay holds.
fn options_of(texts: bool, long: bool) -> ReportOptions
    ensures { result ≡ options_of texts long }
{
    let got = if texts { Got::Text } else { Got::Hexadecimal };
    ReportOptions { long, got }
}
