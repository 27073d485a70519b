//! The report of a pair.

ghost use Rattle.std.specs.Prelude.{◌≡◌, ◌++◌, IfOk, OnOk, length};
ghost use Rattle.pair_report.specs.Lines.{counts_lines};
ghost use Rattle.pair_report.specs.Report.{report_of, told_of, seen_at, sides_of, links_of};
ghost use Rattle.pair_report.specs.Report.{pipes_of, long_of, long_if, got_of};

use crate::heard::meaning_of;
use crate::hex_lines::put_hex_lines;
use crate::lines::counts_lines;
use crate::long::{
    put_links, put_mirrors_down, put_mirrors_up, put_pipes_down, put_pipes_up, put_side,
};
use crate::meaning::Meaning;
use crate::options::{Got, ReportOptions};
use crate::passing::put_text_lines;
use crate::pipes::{begin_all, shut_in};
use proxy_trail::{PairRecord, Trail};
use std::alloc::{AllocError, Global};
use wl_wire::Text;
use wp_outside::Side;

/// The report of a pair, without its last line: how many connections there were and how many
/// messages both peers sent and received; if it is long, what the proxies and their link did; and
/// the messages that were received.
///
/// What was received, the mirrors and the pipes are what the frames mean that a side accepted,
/// which may be more than its peer was given where the side has failed.
///
/// # Errors
/// Only where memory runs out.
pub fn report(alloc: Global, options: ReportOptions, pair: &PairRecord) -> Result<Text, AllocError>
    ensures { IfOk result (λ text. text ≡ report_of options (told_of pair.now)) }
{
    let seen = seen_by(alloc, pair)?;
    let mut out = Text::new(alloc);
    put_report(alloc, &mut out, options, pair, &seen)?;
    Ok(out)
}

/// What the frames mean that both sides accepted, with all pipes that are reported.
#[derive(Drop)]
struct Seen {
    near: Meaning,
    far: Meaning,
}

fn seen_by(alloc: Global, pair: &PairRecord) -> Result<Seen, AllocError>
    ensures near { IfOk result (λ seen. seen.near
        ≡ seen_at (told_of pair.now).near (told_of pair.now).far) }
    ensures far { IfOk result (λ seen. seen.far
        ≡ seen_at (told_of pair.now).far (told_of pair.now).near) }
{
    let mut near = meaning_of(alloc, pair.near.record())?;
    let mut far = meaning_of(alloc, pair.far.record())?;
    begin_all(&mut near.flows, &far.opened)?;
    begin_all(&mut far.flows, &near.opened)?;
    Ok(Seen { near, far })
}

// Adds the report.
fn put_report(
    alloc: Global,
    out: &mut Text,
    options: ReportOptions,
    pair: &PairRecord,
    seen: &Seen,
) -> Result<(), AllocError>
    requires near { seen.now.near ≡ seen_at (told_of pair.now).near (told_of pair.now).far }
    requires far { seen.now.far ≡ seen_at (told_of pair.now).far (told_of pair.now).near }
    ensures { OnOk result (out.new ≡ out.old ++ report_of options (told_of pair.now)) }
{
    let down_received = seen.near.messages.len();
    let up_received = seen.far.messages.len();
    put_counts(alloc, out, pair, down_received, up_received)?;
    put_long_if(alloc, out, options.long, pair, seen)?;
    put_got(alloc, out, options.got, Side::Far, &pair.far, &seen.far)?;
    put_got(alloc, out, options.got, Side::Near, &pair.near, &seen.near)
}

// Adds what a long report has, if it is long.
fn put_long_if(
    alloc: Global,
    out: &mut Text,
    long: bool,
    pair: &PairRecord,
    seen: &Seen,
) -> Result<(), AllocError>
    requires near { seen.now.near ≡ seen_at (told_of pair.now).near (told_of pair.now).far }
    requires far { seen.now.far ≡ seen_at (told_of pair.now).far (told_of pair.now).near }
    ensures { OnOk result (out.new ≡ out.old ++ long_if long (told_of pair.now)) }
{
    if long {
        put_long(alloc, out, pair, seen)
    } else {
        Ok(())
    }
}

// Adds the counts of messages.
fn put_counts(
    alloc: Global,
    out: &mut Text,
    pair: &PairRecord,
    down_received: usize,
    up_received: usize,
) -> Result<(), AllocError>
    ensures { OnOk result (out.new ≡ out.old ++ counts_lines pair.now.connections
        (length pair.now.near.book.trail.taken) down_received
        (length pair.now.far.book.trail.taken) up_received) }
{
    let line = counts_lines(
        alloc,
        pair.connections,
        pair.near.record().taken.len(),
        down_received,
        pair.far.record().taken.len(),
        up_received,
    )?;
    out.append(line.as_bytes())
}

// Adds what a long report has.
fn put_long(alloc: Global, out: &mut Text, pair: &PairRecord, seen: &Seen) -> Result<(), AllocError>
    requires near { seen.now.near ≡ seen_at (told_of pair.now).near (told_of pair.now).far }
    requires far { seen.now.far ≡ seen_at (told_of pair.now).far (told_of pair.now).near }
    ensures { OnOk result (out.new ≡ out.old ++ long_of (told_of pair.now)) }
{
    put_sides(alloc, out, pair)?;
    put_all_links(alloc, out, pair)?;
    put_mirrors_up(alloc, out, seen.far.mirrors.as_map())?;
    put_mirrors_down(alloc, out, seen.near.mirrors.as_map())?;
    put_pipes(alloc, out, pair, seen)
}

// Adds the counts of frames.
fn put_sides(alloc: Global, out: &mut Text, pair: &PairRecord) -> Result<(), AllocError>
    ensures { OnOk result (out.new ≡ out.old ++ sides_of (told_of pair.now)) }
{
    put_side(alloc, out, Side::Near, pair.near.record())?;
    put_side(alloc, out, Side::Far, pair.far.record())
}

// Adds what went over the link.
fn put_all_links(alloc: Global, out: &mut Text, pair: &PairRecord) -> Result<(), AllocError>
    ensures { OnOk result (out.new ≡ out.old ++ links_of (told_of pair.now)) }
{
    pair.near.stands();
    pair.far.stands();
    let near = &pair.near.record().lines;
    let far = &pair.far.record().lines;
    put_links(
        alloc,
        out,
        pair.connections,
        near.as_slice(),
        far.as_slice(),
    )
}

// Adds the pipes.
fn put_pipes(
    alloc: Global,
    out: &mut Text,
    pair: &PairRecord,
    seen: &Seen,
) -> Result<(), AllocError>
    requires near { seen.now.near ≡ seen_at (told_of pair.now).near (told_of pair.now).far }
    requires far { seen.now.far ≡ seen_at (told_of pair.now).far (told_of pair.now).near }
    ensures { OnOk result (out.new ≡ out.old ++ pipes_of (told_of pair.now)) }
{
    let shut = shut_in(alloc, pair.near.record().made.as_slice())?;
    put_pipes_up(
        alloc,
        out,
        &shut,
        &pair.application,
        seen.near.flows.as_map(),
    )?;
    let shut = shut_in(alloc, pair.far.record().made.as_slice())?;
    put_pipes_down(alloc, out, &shut, &pair.compositor, seen.far.flows.as_map())
}

// Adds the messages that the peer beside a side received.
fn put_got(
    alloc: Global,
    out: &mut Text,
    got: Got,
    side: Side,
    trail: &Trail,
    meaning: &Meaning,
) -> Result<(), AllocError>
    ensures { OnOk result (out.new ≡ out.old
        ++ got_of got side trail.now.book meaning.now.messages meaning.now.rids) }
{
    match got {
        Got::Hexadecimal => put_hex_lines(out, side, meaning.messages.as_slice()),
        Got::Text => put_text_lines(
            alloc,
            out,
            side,
            trail.order(),
            trail.record().taken.as_slice(),
            meaning.messages.as_slice(),
            meaning.rids.as_slice(),
        ),
        Got::LeftOut => Ok(()),
    }
}
