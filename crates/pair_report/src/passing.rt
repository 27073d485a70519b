//! The messages that a peer received, as text, by the order in which messages passed.

ghost use Rattle.std.specs.Prelude.{◌≡◌, ◌++◌, [], ◌∷◌, Some, drop, IfOk, OnOk};
ghost use Rattle.wl_objects.specs.Entries.{first_objects};
ghost use Rattle.wl_objects.specs.Tracking.{step};
ghost use Rattle.wl_text.specs.Text.{CanPrint, text_of};
ghost use Rattle.pair_report.specs.Lines.{got_line};
ghost use Rattle.pair_laws.specs.Passing.{is_own_way, passing};
ghost use Rattle.pair_report.specs.Passing.{first_rid, handles_in, rids_behind};
ghost use Rattle.pair_report.specs.Passing.{interface_told, objects_behind, line_if, rids_if};
ghost use Rattle.pair_report.specs.Passing.{text_lines, objects_first, line_first, rids_first};

use crate::lines::got_prefix;
use std::alloc::{AllocError, Global};
use wl_objects::{Objects, PassFault};
use wl_tables::{Interface, Way, handle_kind};
use wl_text::append_message;
use wl_wire::{Message, Text};
use wp_outside::{HandleKind, Side};

/// Adds a line for each message that was received, as its text. Those that the side took from its
/// own peer are tracked between them.
///
/// # Errors
/// Only where memory runs out.
pub(crate) fn put_text_lines(
    alloc: Global,
    out: &mut Text,
    side: Side,
    order: &[Way],
    taken: &[Message],
    received: &[Message],
    rids: &[i32],
) -> Result<(), AllocError>
    ensures { OnOk result (out.new ≡ out.old ++ text_lines side
        (passing side order.now taken.now received.now) first_objects rids.now) }
{
    let mut objects = Objects::new(alloc)?;
    let mut taken_left = taken;
    let mut received_left = received;
    let mut rids_left = rids;
    for way in order {
        if is_own_way(side, *way) {
            taken_left = track_first(&mut objects, *way, taken_left)?;
        } else {
            let (behind, rids_behind) = put_first(
                out,
                side,
                *way,
                &mut objects,
                received_left,
                rids_left,
            )?;
            received_left = behind;
            rids_left = rids_behind;
        }
    }
    Ok(())
}

// Whether messages of this way are those of the side's own peer.
fn is_own_way(side: Side, way: Way) -> bool
    ensures { result ≡ is_own_way side way }
{
    match (side, way) {
        (Side::Near, Way::Request) => true,
        (Side::Near, Way::Event) => false,
        (Side::Far, Way::Request) => false,
        (Side::Far, Way::Event) => true,
    }
}

// Tracks the first message, if there is one, and answers those behind it.
fn track_first<'a>(
    objects: &mut Objects,
    way: Way,
    messages: &'a [Message],
) -> Result<&'a [Message], AllocError>
    ensures behind { IfOk result (λ behind. behind.now ≡ drop 1 messages.now) }
    ensures objects { OnOk result (objects.new.tracked
        ≡ objects_first way messages.now objects.old.tracked) }
{
    match messages {
        [] => Ok(messages),
        [message, behind @ ..] => {
            track(objects, way, message)?;
            Ok(behind)
        }
    }
}

// Adds the line of the first message, if there is one, and answers the messages and the rids behind
// it.
fn put_first<'a>(
    out: &mut Text,
    side: Side,
    way: Way,
    objects: &mut Objects,
    messages: &'a [Message],
    rids: &'a [i32],
) -> Result<(&'a [Message], &'a [i32]), AllocError>
    ensures behind { IfOk result (λ left. left.0.now ≡ drop 1 messages.now) }
    ensures rids { IfOk result (λ left. left.1.now
        ≡ rids_first way messages.now objects.old.tracked rids.now) }
    ensures line { OnOk result (out.new ≡ out.old
        ++ line_first side way messages.now objects.old.tracked rids.now) }
    ensures objects { OnOk result (objects.new.tracked
        ≡ objects_first way messages.now objects.old.tracked) }
{
    match messages {
        [] => Ok((messages, rids)),
        [message, behind @ ..] => {
            let rids_behind = put_received(out, side, way, objects, message, rids)?;
            Ok((behind, rids_behind))
        }
    }
}

// Adds the line of a message, if it passes, and answers the rids behind.
fn put_received<'a>(
    out: &mut Text,
    side: Side,
    way: Way,
    objects: &mut Objects,
    message: &Message,
    rids: &'a [i32],
) -> Result<&'a [i32], AllocError>
    ensures rids { IfOk result (λ left. left.now
        ≡ rids_if (interface_told (step way objects.old.tracked message.now)) way message.now
        rids.now) }
    ensures line { OnOk result (out.new ≡ out.old
        ++ line_if (interface_told (step way objects.old.tracked message.now)) side way
        message.now rids.now) }
    ensures objects { OnOk result (objects.new.tracked
        ≡ objects_behind (step way objects.old.tracked message.now) objects.old.tracked) }
{
    match track(objects, way, message)? {
        None => Ok(rids),
        Some(interface) => {
            let kind = handle_kind(interface, way.is_event(), message.opcode());
            put_line(out, side, way, interface, message, kind, first_rid(rids))?;
            Ok(rids_behind(kind, rids))
        }
    }
}

// Tracks a message, and answers the interface of its object where it passes.
fn track(
    objects: &mut Objects,
    way: Way,
    message: &Message,
) -> Result<Option<Interface>, AllocError>
    ensures told { IfOk result (λ told. told
        ≡ interface_told (step way objects.old.tracked message.now)) }
    ensures objects { OnOk result (objects.new.tracked
        ≡ objects_behind (step way objects.old.tracked message.now) objects.old.tracked) }
{
    match objects.track(way, message) {
        Ok(interface) => Ok(Some(interface)),
        Err(PassFault::Object(_)) => Ok(None),
        Err(PassFault::Memory) => Err(AllocError),
    }
}

// The first rid, or 0 where there is none.
fn first_rid(rids: &[i32]) -> i32
    ensures { result ≡ first_rid rids.now }
{
    match rids {
        [] => 0,
        [rid, ..] => *rid,
    }
}

// The rids behind those of a message.
fn rids_behind(kind: Option<HandleKind>, rids: &[i32]) -> &[i32]
    ensures { result.now ≡ rids_behind kind rids.now }
{
    match kind {
        None => rids,
        Some(_) => match rids {
            [] => rids,
            [_, behind @ ..] => behind,
        },
    }
}

// Adds the line of a message that passed, with this rid if it carries a handle.
fn put_line(
    out: &mut Text,
    side: Side,
    way: Way,
    interface: Interface,
    message: &Message,
    kind: Option<HandleKind>,
    rid: i32,
) -> Result<(), AllocError>
    requires { CanPrint interface way message.now (handles_in kind (rid ∷ [])) }
    ensures { OnOk result (out.new ≡ out.old
        ++ got_line side (text_of interface way message.now (handles_in kind (rid ∷ [])))) }
{
    out.append(got_prefix(side))?;
    put_text(out, way, interface, message, kind, rid)?;
    out.push(b'\n')
}

// Adds the text of a message that passed, with this rid if it carries a handle.
fn put_text(
    out: &mut Text,
    way: Way,
    interface: Interface,
    message: &Message,
    kind: Option<HandleKind>,
    rid: i32,
) -> Result<(), AllocError>
    requires { CanPrint interface way message.now (handles_in kind (rid ∷ [])) }
    ensures { OnOk result (out.new ≡ out.old
        ++ text_of interface way message.now (handles_in kind (rid ∷ []))) }
{
    match kind {
        None => append_message(out, interface, way, message, &[]),
        Some(_) => append_message(out, interface, way, message, &[rid]),
    }
}
