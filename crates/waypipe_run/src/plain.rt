//! The call that the program makes.
ghost use Rattle.std.specs.Prelude.{◌≡◌};
ghost use Rattle.script_replay.specs.Standing.{NothingOpened};
ghost use Rattle.waypipe_run.specs.Top.{Outcome, outside};

use crate::answers::answer;
use crate::status::Status;
use crate::writing::write_all;
use std::alloc::Global;
use wp_outside::{LinkStore, Sink, Source};

/// Does what the words ask for: reads the input to its end, unless they ask for a trial, replays the
/// script over the link, on which nothing was opened before, and writes the report. The whole text
/// is made before the first write.
#[tactic(auto, using(crate::proofs::OutcomeLemmas::written_whole, crate::proofs::OutcomeLemmas::written_part))]
pub fn run_plain<S: Source, K: Sink, L: LinkStore>(
    alloc: Global,
    words: &[String],
    input: &mut S,
    output: &mut K,
    line: &mut L,
) -> Status
    requires { NothingOpened (L.line line.old) }
    ensures { Outcome result words.now
        (outside (S.left input.old) (S.faults input.old) (L.line line.old))
        (outside (S.left input.new) (S.faults input.new) (L.line line.new))
        (record { held = K.held output.old; faults = K.faults output.old })
        (record { held = K.held output.new; faults = K.faults output.new }) }
{
    match answer(alloc, words, input, line) {
        Ok(reply) => match write_all(output, reply.text.as_slice()) {
            Ok(()) => reply.status,
            Err(_) => Status::WriteFault,
        },
        Err(_) => Status::Memory,
    }
}
