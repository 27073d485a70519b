//! The last lines of what the program prints.
ghost use Rattle.std.specs.Prelude.{◌≡◌, string_bytes, IfOk};
ghost use Rattle.waypipe_run.specs.Texts.{usage_text, read_failed_text, drained_text, stopped_text};
ghost use Rattle.waypipe_run.specs.Texts.{script_text, peer_text, limit_text, frame_text};
ghost use Rattle.waypipe_run.specs.Texts.{rest_text, closed_text, link_failed_text};

use crate::names::{
    frame_detail, frame_name, limit_name, peer_name, reader_name, script_name, side_name,
};
use crate::status::Reader;
use half_model::{Limit, PeerCause};
use script_lang::ScriptCause;
use std::alloc::{AllocError, Global};
use transfer_frames::FrameCause;
use wp_outside::Side;

/// The line for words that are no command.
#[tactic(auto, unfolding(crate::specs::Texts::usage_text))]
pub fn usage_text() -> &'static str
    ensures { result.now ≡ usage_text }
{
    "usage: waypipe replay [--text] [--long] or frames or trial N or session [--workers N] [--link memory or tcp] [--text] [--long]\n"
}

/// The line for an input that was not read.
#[tactic(auto, unfolding(crate::specs::Texts::read_failed_text))]
pub fn read_failed_text() -> &'static str
    ensures { result.now ≡ read_failed_text }
{
    "read failed\n"
}

/// The line of a replay that went through.
#[tactic(auto, unfolding(crate::specs::Texts::drained_text))]
pub fn drained_text() -> &'static str
    ensures { result.now ≡ drained_text }
{
    "drained\n"
}

/// The line of a replay that a script stopped.
#[tactic(auto, unfolding(crate::specs::Texts::stopped_text))]
pub fn stopped_text() -> &'static str
    ensures { result.now ≡ stopped_text }
{
    "stopped\n"
}

/// The line of a session that both sides closed.
#[tactic(auto, unfolding(crate::specs::Texts::closed_text))]
pub fn closed_text() -> &'static str
    ensures { result.now ≡ closed_text }
{
    "closed\n"
}

/// The line of a session whose link failed.
#[tactic(auto, unfolding(crate::specs::Texts::link_failed_text))]
pub fn link_failed_text() -> &'static str
    ensures { result.now ≡ link_failed_text }
{
    "link failed\n"
}

/// The line for a script of which a line is none.
#[tactic(auto, unfolding(crate::specs::Texts::script_text))]
pub fn script_text(alloc: Global, line: u32, cause: ScriptCause) -> Result<String, AllocError>
    ensures { IfOk result (λ text. string_bytes text ≡ script_text line cause) }
{
    let name = script_name(cause);
    format!(in alloc; "script line {line}: {name}\n")
}

/// The line for a message that is refused.
#[tactic(auto, unfolding(crate::specs::Texts::peer_text))]
pub fn peer_text(
    alloc: Global,
    side: Side,
    index: u64,
    cause: PeerCause,
) -> Result<String, AllocError>
    ensures { IfOk result (λ text. string_bytes text ≡ peer_text side index cause) }
{
    let peer = side_name(side);
    let name = peer_name(cause);
    format!(in alloc; "peer {peer} message {index}: {name}\n")
}

/// The line for a limit that was met.
#[tactic(auto, unfolding(crate::specs::Texts::limit_text))]
pub fn limit_text(alloc: Global, which: Limit) -> Result<String, AllocError>
    ensures { IfOk result (λ text. string_bytes text ≡ limit_text which) }
{
    let name = limit_name(which);
    format!(in alloc; "limit {name}\n")
}

/// The line for a frame that is refused.
#[tactic(auto, unfolding(crate::specs::Texts::frame_text))]
pub fn frame_text(
    alloc: Global,
    reader: Reader,
    connection: u32,
    place: u64,
    cause: FrameCause,
) -> Result<String, AllocError>
    ensures { IfOk result (λ text. string_bytes text ≡ frame_text reader connection place cause) }
{
    let reader = reader_name(reader);
    let name = frame_name(cause);
    let detail = frame_detail(alloc, cause)?;
    format!(in alloc; "frame {reader} connection {connection} place {place}: {name}{detail}\n")
}

/// The line for the bytes behind the last whole frame.
#[tactic(auto, unfolding(crate::specs::Texts::rest_text))]
pub fn rest_text(alloc: Global, count: u64) -> Result<String, AllocError>
    ensures { IfOk result (λ text. string_bytes text ≡ rest_text count) }
{
    format!(in alloc; "rest {count}\n")
}
