//! What a long report tells of the proxies and their link.

ghost use Rattle.std.specs.Prelude.{◌≡◌, ◌++◌, length, map, OnOk, reverse};
ghost use Rattle.wp_outside.specs.declared.kinds.Direction.TheVariants.{Up, Down};
ghost use Rattle.pair_model.specs.Lines.{Rising};
ghost use Rattle.trail_records.specs.Noting.{trail_of};
ghost use Rattle.trail_records.specs.Rows.{line_of};
ghost use Rattle.std.specs.List.{flat_map};
ghost use Rattle.pair_model.specs.Lines.{written_on, read_on};
ghost use Rattle.pair_audit.specs.Walking.{rows_behind};
ghost use Rattle.pair_report.specs.Lines.{lane_line, mirror_line};
ghost use Rattle.pair_report.specs.Report.{side_of, links, mirror_lines, owner_line};

use crate::flows::PipeGiven;
use crate::lines::{lane_line, mirror_line, side_line};
use crate::mirror::Mirror;
use crate::pipes::put_pipe;
use std::alloc::{AllocError, Global};
use std::collections::{BTreeMap, BTreeSet};
use take_half::PeerRecord;
use trail_records::{LineRecord, TrailRecord};
use wl_wire::Text;
use wp_outside::{Direction, Side};

/// Adds how many frames a side made, knows to be accepted, and accepted.
pub(crate) fn put_side(
    alloc: Global,
    out: &mut Text,
    side: Side,
    kept: &TrailRecord,
) -> Result<(), AllocError>
    ensures { OnOk result (out.new ≡ out.old ++ side_of side (trail_of kept.now)) }
{
    let line = side_line(
        alloc,
        side,
        kept.made.len(),
        kept.acknowledged,
        kept.accepted,
    )?;
    out.append(line.as_bytes())
}

/// Adds what went over each connection, from 1 on, both ways.
pub(crate) fn put_links(
    alloc: Global,
    out: &mut Text,
    connections: u32,
    near: &[LineRecord],
    far: &[LineRecord],
) -> Result<(), AllocError>
    requires near { Rising 1 (map line_of near.now) }
    requires far { Rising 1 (map line_of far.now) }
    ensures { OnOk result (out.new ≡ out.old
        ++ links connections (map line_of near.now) (map line_of far.now)) }
{
    let mut near_left = near;
    let mut far_left = far;
    for connection in 0..connections {
        let (near_line, near_behind) = first_counts(near_left, connection + 1);
        let (far_line, far_behind) = first_counts(far_left, connection + 1);
        put_link(alloc, out, connection + 1, near_line, far_line)?;
        near_left = near_behind;
        far_left = far_behind;
    }
    Ok(())
}

/// How many bytes a side wrote and read on one connection.
#[derive(Clone, Copy)]
struct LineCounts {
    written: usize,
    read: usize,
}

// The counts of the first line, if it is that of this connection, and the lines behind it.
fn first_counts(rows: &[LineRecord], connection: u32) -> (LineCounts, &[LineRecord])
    requires { Rising connection (map line_of rows.now) }
    ensures written { result.0.written ≡ length (written_on connection (map line_of rows.now)) }
    ensures read { result.0.read ≡ length (read_on connection (map line_of rows.now)) }
    ensures rest { map line_of result.1.now ≡ rows_behind connection (map line_of rows.now) }
{
    let none = LineCounts {
        written: 0,
        read: 0,
    };
    match rows {
        [] => (none, rows),
        [line, ..] if line.connection != connection => (none, rows),
        [line, behind @ ..] => {
            let counts = LineCounts {
                written: line.written.len(),
                read: line.read.len(),
            };
            (counts, behind)
        }
    }
}

// Adds what went over one connection, both ways.
fn put_link(
    alloc: Global,
    out: &mut Text,
    connection: u32,
    near: LineCounts,
    far: LineCounts,
) -> Result<(), AllocError>
    ensures { OnOk result (out.new ≡ out.old
        ++ (lane_line connection Up near.written far.read
        ++ lane_line connection Down far.written near.read)) }
{
    let up = lane_line(alloc, connection, Direction::Up, near.written, far.read)?;
    let down = lane_line(alloc, connection, Direction::Down, far.written, near.read)?;
    out.append(up.as_bytes())?;
    out.append(down.as_bytes())
}

/// Adds the mirrors, their rids rising.
pub(crate) fn put_mirrors_up(
    alloc: Global,
    out: &mut Text,
    mirrors: &BTreeMap<i32, Mirror>,
) -> Result<(), AllocError>
    ensures { OnOk result (out.new ≡ out.old ++ mirror_lines mirrors.now.entries) }
{
    for (rid, mirror) in mirrors {
        put_mirror(alloc, out, *rid, mirror)?;
    }
    Ok(())
}

/// Adds the mirrors, their rids falling.
pub(crate) fn put_mirrors_down(
    alloc: Global,
    out: &mut Text,
    mirrors: &BTreeMap<i32, Mirror>,
) -> Result<(), AllocError>
    ensures { OnOk result (out.new ≡ out.old ++ mirror_lines (reverse mirrors.now.entries)) }
{
    let mut left = mirrors.iter();
    while let Some((rid, mirror)) = left.next_back() {
        put_mirror(alloc, out, *rid, mirror)?;
    }
    Ok(())
}

// Adds one mirror.
fn put_mirror(alloc: Global, out: &mut Text, rid: i32, mirror: &Mirror) -> Result<(), AllocError>
    ensures { OnOk result (out.new ≡ out.old ++ mirror_line rid mirror.now) }
{
    let line = mirror_line(alloc, rid, mirror)?;
    out.append(line.as_bytes())
}

/// Adds the pipes of an owner, their rids rising.
pub(crate) fn put_pipes_up(
    alloc: Global,
    out: &mut Text,
    shut: &BTreeSet<i32>,
    peer: &PeerRecord,
    flows: &BTreeMap<i32, PipeGiven>,
) -> Result<(), AllocError>
    ensures { OnOk result (out.new ≡ out.old
        ++ flat_map (owner_line shut.now.keys peer.now) flows.now.entries) }
{
    for (rid, flow) in flows {
        put_pipe(alloc, out, shut, peer, *rid, flow)?;
    }
    Ok(())
}

/// Adds the pipes of an owner, their rids falling.
pub(crate) fn put_pipes_down(
    alloc: Global,
    out: &mut Text,
    shut: &BTreeSet<i32>,
    peer: &PeerRecord,
    flows: &BTreeMap<i32, PipeGiven>,
) -> Result<(), AllocError>
    ensures { OnOk result (out.new ≡ out.old
        ++ flat_map (owner_line shut.now.keys peer.now) (reverse flows.now.entries)) }
{
    let mut left = flows.iter();
    while let Some((rid, flow)) = left.next_back() {
        put_pipe(alloc, out, shut, peer, *rid, flow)?;
    }
    Ok(())
}
