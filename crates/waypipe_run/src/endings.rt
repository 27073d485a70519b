//! How the report of a replay ends.

ghost use Rattle.std.specs.Prelude.{◌≡◌, ◌++◌, IfOk};
ghost use Rattle.waypipe_run.specs.Endings.{EndsReport, EndsByFault, reader_of};
ghost use Rattle.waypipe_run.specs.Texts.{peer_text, frame_text, limit_text};

use crate::replies::{Reply, ended};
use crate::status::{Reader, Status};
use crate::texts::{
    closed_text, drained_text, frame_text, limit_text, link_failed_text, peer_text, stopped_text,
};
use half_model::{Limit, PeerCause};
use proxy_trail::PairEnd;
use side_model::ProxyFault;
use std::alloc::{AllocError, Global};
use transfer_frames::FrameCause;
use wl_wire::Text;
use wp_outside::Side;

/// The status that the end of a pair gives, and its last line behind the report.
///
/// # Errors
/// Where memory runs out, or where a side had none.
pub fn end_report(alloc: Global, report: Text, end: PairEnd) -> Result<Reply, AllocError>
    ensures { IfOk result (λ reply. EndsReport end reply.status report reply.text) }
{
    match end {
        PairEnd::Drained => ended(Status::Done, report, drained_text()),
        PairEnd::Stopped => ended(Status::Done, report, stopped_text()),
        PairEnd::Closed => ended(Status::Done, report, closed_text()),
        PairEnd::LinkFault => ended(Status::LinkFault, report, link_failed_text()),
        PairEnd::Fault { side, fault } => end_by_fault(alloc, report, side, fault),
    }
}

/// The end by a side that failed.
fn end_by_fault(
    alloc: Global,
    report: Text,
    side: Side,
    fault: ProxyFault,
) -> Result<Reply, AllocError>
    ensures { IfOk result (λ reply. EndsByFault side fault reply.status report reply.text) }
{
    match fault {
        ProxyFault::Frame {
            connection,
            place,
            cause,
        } => end_by_frame(alloc, report, reader_of(side), connection, place, cause),
        ProxyFault::Peer { index, cause } => end_by_message(alloc, report, side, index, cause),
        ProxyFault::Limit { which } => end_by_limit(alloc, report, which),
        ProxyFault::Memory => Err(AllocError),
    }
}

/// The end by a frame that is refused.
fn end_by_frame(
    alloc: Global,
    report: Text,
    reader: Reader,
    connection: u32,
    place: u64,
    cause: FrameCause,
) -> Result<Reply, AllocError>
    ensures status { IfOk result (λ reply. reply.status
        ≡ Status.Frame reader connection place cause) }
    ensures text { IfOk result (λ reply. reply.text
        ≡ report ++ frame_text reader connection place cause) }
{
    let last = frame_text(alloc, reader, connection, place, cause)?;
    ended(
        Status::Frame {
            reader,
            connection,
            place,
            cause,
        },
        report,
        last.as_str(),
    )
}

/// The end by a message of a peer that is refused.
fn end_by_message(
    alloc: Global,
    report: Text,
    side: Side,
    index: u64,
    cause: PeerCause,
) -> Result<Reply, AllocError>
    ensures status { IfOk result (λ reply. reply.status ≡ Status.Peer side index cause) }
    ensures text { IfOk result (λ reply. reply.text ≡ report ++ peer_text side index cause) }
{
    let last = peer_text(alloc, side, index, cause)?;
    ended(Status::Peer { side, index, cause }, report, last.as_str())
}

/// The end by a limit that was met.
fn end_by_limit(alloc: Global, report: Text, which: Limit) -> Result<Reply, AllocError>
    ensures status { IfOk result (λ reply. reply.status ≡ Status.Limit which) }
    ensures text { IfOk result (λ reply. reply.text ≡ report ++ limit_text which) }
{
    let last = limit_text(alloc, which)?;
    ended(Status::Limit { which }, report, last.as_str())
}

/// What a proxy read of the link.
fn reader_of(side: Side) -> Reader
    ensures { result ≡ reader_of side }
{
    match side {
        Side::Near => Reader::Near,
        Side::Far => Reader::Far,
    }
}
