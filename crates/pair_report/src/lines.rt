//! The single lines of a report.

ghost use Rattle.std.specs.Prelude.{◌≡◌, ◌++◌, string_bytes, IfOk, OnOk};
ghost use Rattle.pair_report.specs.Lines.{counts_lines, side_word, side_line, direction_word};
ghost use Rattle.pair_report.specs.Lines.{lane_line, mirror_line, state_word, pipe_line};
ghost use Rattle.pair_report.specs.Lines.{got_prefix};
ghost use Rattle.pair_report.specs.Lines.{hex_line};

use crate::mirror::Mirror;
use crate::sums::sum_of;
use std::alloc::{AllocError, Global};
use transfer_frames::append_hex;
use wl_wire::Text;
use wp_outside::{Direction, Side};

/// How many connections there were, and how many messages each peer sent and received.
#[tactic(auto, unfolding(crate::specs::Lines::counts_lines))]
pub(crate) fn counts_lines(
    alloc: Global,
    connections: u32,
    up_sent: usize,
    down_received: usize,
    down_sent: usize,
    up_received: usize,
) -> Result<String, AllocError>
    ensures { IfOk result (λ text. string_bytes text
        ≡ counts_lines connections up_sent down_received down_sent up_received) }
{
    format!(in alloc;
        "connections {connections}\napplication sent {up_sent} received {down_received}\ncompositor sent {down_sent} received {up_received}\n"
    )
}

// What names a side.
#[tactic(auto, unfolding(crate::specs::Lines::side_word))]
fn side_word(side: Side) -> &'static str
    ensures { result.now ≡ side_word side }
{
    match side {
        Side::Near => "near",
        Side::Far => "far",
    }
}

/// How many frames a side made, knows to be accepted, and accepted.
#[tactic(auto, unfolding(crate::specs::Lines::side_line))]
pub(crate) fn side_line(
    alloc: Global,
    side: Side,
    made: usize,
    acknowledged: u64,
    accepted: u64,
) -> Result<String, AllocError>
    ensures { IfOk result (λ text. string_bytes text
        ≡ side_line side made acknowledged accepted) }
{
    let name = side_word(side);
    format!(in alloc; "{name} made {made} acknowledged {acknowledged} accepted {accepted}\n")
}

// What names a direction.
#[tactic(auto, unfolding(crate::specs::Lines::direction_word))]
fn direction_word(direction: Direction) -> &'static str
    ensures { result.now ≡ direction_word direction }
{
    match direction {
        Direction::Up => "up",
        Direction::Down => "down",
    }
}

/// How many bytes were written and read one way on a connection.
#[tactic(auto, unfolding(crate::specs::Lines::lane_line))]
pub(crate) fn lane_line(
    alloc: Global,
    connection: u32,
    direction: Direction,
    written: usize,
    read: usize,
) -> Result<String, AllocError>
    ensures { IfOk result (λ text. string_bytes text
        ≡ lane_line connection direction written read) }
{
    let name = direction_word(direction);
    format!(in alloc; "link {connection} {name} written {written} read {read}\n")
}

/// A mirror: its told size, and the sum of all its bytes.
#[tactic(auto, unfolding(crate::specs::Lines::mirror_line))]
pub(crate) fn mirror_line(alloc: Global, rid: i32, mirror: &Mirror) -> Result<String, AllocError>
    ensures { IfOk result (λ text. string_bytes text ≡ mirror_line rid mirror.now) }
{
    let size = mirror.size();
    let sum = sum_of(mirror.bytes());
    format!(in alloc; "mirror {rid} size {size} sum {sum}\n")
}

// What became of a pipe.
#[tactic(auto, unfolding(crate::specs::Lines::state_word))]
fn state_word(has_ended: bool, is_shut: bool) -> &'static str
    ensures { result.now ≡ state_word has_ended is_shut }
{
    if has_ended {
        "ended"
    } else if is_shut {
        "shut"
    } else {
        "open"
    }
}

/// A pipe: how many bytes its owner was given, their sum, and what became of it.
#[tactic(auto, unfolding(crate::specs::Lines::pipe_line))]
pub(crate) fn pipe_line(
    alloc: Global,
    rid: i32,
    is_shut: bool,
    bytes: &[u8],
    has_ended: bool,
) -> Result<String, AllocError>
    ensures { IfOk result (λ text. string_bytes text
        ≡ pipe_line rid is_shut bytes.now has_ended) }
{
    let count = bytes.len();
    let sum = sum_of(bytes);
    let state = state_word(has_ended, is_shut);
    format!(in alloc; "pipe {rid} bytes {count} sum {sum} {state}\n")
}

/// What the line of a received message begins with, by the side beside its receiver.
#[tactic(auto, unfolding(crate::specs::Lines::got_prefix))]
pub(crate) fn got_prefix(side: Side) -> &'static [u8]
    ensures { result.now ≡ got_prefix side }
{
    match side {
        Side::Near => b"got application ",
        Side::Far => b"got compositor ",
    }
}

/// Adds the line of a received message as hexadecimal digits.
pub(crate) fn put_hex_line(out: &mut Text, side: Side, message: &[u8]) -> Result<(), AllocError>
    ensures { OnOk result (out.new ≡ out.old ++ hex_line side message.now) }
{
    out.append(got_prefix(side))?;
    append_hex(out, message)?;
    out.push(b'\n')
}
