//! The lines of pipes.

ghost use Rattle.std.specs.Prelude.{◌≡◌, ◌++◌, [], IfOk, OnOk};
ghost use Rattle.pair_report.specs.Meant.{with_shut, shut_from};
ghost use Rattle.pair_report.specs.Report.{owner_line, begun};

use crate::flows::{FlowMap, PipeGiven};
use crate::lines::pipe_line;
use std::alloc::{AllocError, Global};
use std::collections::BTreeSet;
use take_half::PeerRecord;
use transfer_frames::Frame;
use wl_wire::Text;

/// The rids of the pipes whose reading ends a side closed, by the frames that it made.
pub(crate) fn shut_in(alloc: Global, made: &[Frame]) -> Result<BTreeSet<i32>, AllocError>
    ensures { IfOk result (λ shut. shut.keys ≡ shut_from made.now []) }
{
    let mut shut = BTreeSet::new(alloc);
    for frame in made {
        add_shut(&mut shut, frame)?;
    }
    Ok(shut)
}

// The rid of a pipe whose reading end this frame says is closed.
fn add_shut(shut: &mut BTreeSet<i32>, frame: &Frame) -> Result<(), AllocError>
    ensures { OnOk result (shut.new.keys ≡ with_shut frame.now shut.old.keys) }
{
    match frame {
        Frame::PipeShutR { rid } => {
            shut.insert(*rid)?;
            Ok(())
        }
        _ => Ok(()),
    }
}

/// Adds the pipes that were opened to those of which something came.
pub(crate) fn begin_all(flows: &mut FlowMap, opened: &BTreeSet<i32>) -> Result<(), AllocError>
    ensures { OnOk result (flows.new ≡ begun opened.now.keys flows.old) }
{
    for rid in opened {
        flows.begin(*rid)?;
    }
    Ok(())
}

/// Adds the line of a pipe. Of one that its owner's side shut counts what the owner was given.
pub(crate) fn put_pipe(
    alloc: Global,
    out: &mut Text,
    shut: &BTreeSet<i32>,
    peer: &PeerRecord,
    rid: i32,
    flow: &PipeGiven,
) -> Result<(), AllocError>
    ensures { OnOk result (out.new ≡ out.old
        ++ owner_line shut.now.keys peer.now (rid, flow.now)) }
{
    if !shut.contains(&rid) {
        let line = pipe_line(alloc, rid, false, flow.bytes(), flow.has_ended())?;
        return out.append(line.as_bytes());
    }
    match peer.pipe(rid) {
        Some(given) => {
            let line = pipe_line(alloc, rid, true, given.bytes(), given.has_ended())?;
            out.append(line.as_bytes())
        }
        None => {
            let line = pipe_line(alloc, rid, true, &[], false)?;
            out.append(line.as_bytes())
        }
    }
}
