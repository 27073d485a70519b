//! All connections of two sides, one beside the other.

ghost use Rattle.std.specs.Prelude.{◌≡◌, ◌+◌, MatchResult, map};
ghost use Rattle.pair_model.specs.Lines.{Agrees, Rising, written_on, read_on};
ghost use Rattle.pair_laws.specs.Differences.{FirstDiffers};
ghost use Rattle.trail_records.specs.Rows.{line_of};
ghost use Rattle.pair_audit.specs.Walking.{rows_behind, first_of};

use crate::lanes::audit_lane;
use pair_laws::Differs;
use trail_records::{LineList, LineRecord};
use wp_outside::Direction::{Down, Up};

/// Whether two sides agree on the bytes of their link: on each connection, both ways, the bytes
/// that one side read begin those that the other one wrote. A side that lacks a connection wrote
/// and read nothing there. Takes no memory, and the time of one walk along both.
///
/// # Errors
/// The first byte that was read and not written at its place, where connections are compared by
/// their rising numbers, and on each one what goes up before what goes down.
pub fn audit_lines(near: &LineList, far: &LineList) -> Result<(), Differs>
    requires near { Rising 1 near.now.rows }
    requires far { Rising 1 far.now.rows }
    ensures { MatchResult result (λ _. Agrees near.now.rows far.now.rows)
        (λ it. FirstDiffers near.now.rows far.now.rows it) }
{
    audit_rows(near.as_slice(), far.as_slice())
}

fn audit_rows(near: &[LineRecord], far: &[LineRecord]) -> Result<(), Differs>
    requires near { Rising 1 (map line_of near.now) }
    requires far { Rising 1 (map line_of far.now) }
    ensures { MatchResult result (λ _. Agrees (map line_of near.now) (map line_of far.now))
        (λ it. FirstDiffers (map line_of near.now) (map line_of far.now) it) }
{
    let mut near_left = near;
    let mut far_left = far;
    while let Some(connection) = first_connection(near_left, far_left) {
        let (near_line, near_behind) = split_line(near_left, connection);
        let (far_line, far_behind) = split_line(far_left, connection);
        audit_lane(connection, Up, near_line.written, far_line.read)?;
        audit_lane(connection, Down, far_line.written, near_line.read)?;
        near_left = near_behind;
        far_left = far_behind;
    }
    Ok(())
}

// The least connection of both sides.
fn first_connection(near: &[LineRecord], far: &[LineRecord]) -> Option<u32>
    ensures { result ≡ first_of (map line_of near.now) (map line_of far.now) }
{
    match (near, far) {
        ([], []) => None,
        ([line, ..], []) | ([], [line, ..]) => Some(line.connection),
        ([near_line, ..], [far_line, ..]) => Some(near_line.connection.min(far_line.connection)),
    }
}

/// What a side wrote and read on one connection.
#[derive(Clone, Copy)]
struct Lanes<'a> {
    written: &'a [u8],
    read: &'a [u8],
}

// The lanes of a connection that no line of the side comes before, empty where it has no such line,
// and the lines behind it.
fn split_line(rows: &[LineRecord], connection: u32) -> (Lanes<'_>, &[LineRecord])
    requires { Rising connection (map line_of rows.now) }
    ensures written { result.0.written.now ≡ written_on connection (map line_of rows.now) }
    ensures read { result.0.read.now ≡ read_on connection (map line_of rows.now) }
    ensures rest { map line_of result.1.now ≡ rows_behind connection (map line_of rows.now) }
{
    let none = Lanes {
        written: &[],
        read: &[],
    };
    match rows {
        [] => (none, rows),
        [line, ..] if line.connection != connection => (none, rows),
        [line, rest @ ..] => {
            let lanes = Lanes {
                written: line.written.as_slice(),
                read: line.read.as_slice(),
            };
            (lanes, rest)
        }
    }
}
