//! What the table says of a message.

ghost use Rattle.std.specs.Prelude.{◌≡◌, ◌≤◌, length, option_map, IsTrue};
ghost use Rattle.std.specs.List.{position_from};
ghost use Rattle.std.specs.Str.{bytes_eq};
ghost use Rattle.wl_tables.specs.Rows.{row_of, is_short};
ghost use Rattle.wl_tables.specs.Messages.{form_of, new_in, handle_in, signature, new_interface};
ghost use Rattle.wl_tables.specs.Messages.{handle_kind, message_name, opcode_of};

use crate::interface::Interface;
use crate::messages::{messages, row_at};
use crate::rows::{Place, Row};
use wl_wire::Signature;
use wp_outside::HandleKind;

/// The slots of a row's places.
fn signature_of(row: Row) -> Signature
    requires { IsTrue (is_short (row_of row)) }
    ensures { result ≡ form_of (row_of row) }
{
    let places = row.places();
    let mut signature = Signature::new(row.destroys());
    for place in places {
        signature = signature.with(place.slot());
    }
    signature
}

/// The interface of the new object among places.
fn new_in(places: &[Place]) -> Option<Interface>
    ensures { result ≡ new_in places.now }
{
    for place in places {
        if let Some(interface) = place.made() {
            return Some(interface);
        }
    }
    None
}

/// The kind of the handle among places.
fn handle_in(places: &[Place]) -> Option<HandleKind>
    ensures { result ≡ handle_in places.now }
{
    for place in places {
        if let Some(kind) = place.carried() {
            return Some(kind);
        }
    }
    None
}

/// The place of the first row with this name.
fn opcode_among(rows: &[Row], name: &[u8]) -> Option<u16>
    requires { length rows.now ≤ 16 }
    ensures { result ≡ position_from (λ it. bytes_eq (row_of it).name name.now) 0 rows.now }
{
    let mut opcode: u16 = 0;
    for row in rows {
        if row.name().as_bytes() == name {
            return Some(opcode);
        }
        opcode += 1;
    }
    None
}

/// The arguments of a message and whether it destroys its object, or none where the interface has
/// no such message. `events` says whether the opcode is that of an event or of a request.
pub fn signature(interface: Interface, events: bool, opcode: u16) -> Option<Signature>
    ensures { result ≡ signature interface events opcode }
{
    match row_at(interface, events, opcode) {
        Some(row) => Some(signature_of(row)),
        None => None,
    }
}

/// The interface of the object that a message makes, or none where there is no such message or it
/// makes none of a fixed interface. `wl_registry.bind` is one that fixes none.
pub fn new_interface(interface: Interface, events: bool, opcode: u16) -> Option<Interface>
    ensures { result ≡ new_interface interface events opcode }
{
    match row_at(interface, events, opcode) {
        Some(row) => new_in(row.places()),
        None => None,
    }
}

/// The kind of the handle that a message carries, or none where there is no such message or it
/// carries none.
pub fn handle_kind(interface: Interface, events: bool, opcode: u16) -> Option<HandleKind>
    ensures { result ≡ handle_kind interface events opcode }
{
    match row_at(interface, events, opcode) {
        Some(row) => handle_in(row.places()),
        None => None,
    }
}

/// The name of a message, or none where the interface has no such message.
pub fn message_name(interface: Interface, events: bool, opcode: u16) -> Option<&'static str>
    ensures { option_map (λ it. it.now) result ≡ message_name interface events opcode }
{
    match row_at(interface, events, opcode) {
        Some(row) => Some(row.name()),
        None => None,
    }
}

/// The opcode of the interface's request or event with exactly this name, or none where there is
/// none.
pub fn opcode_of(interface: Interface, events: bool, name: &[u8]) -> Option<u16>
    ensures { result ≡ opcode_of interface events name.now }
{
    opcode_among(messages(interface, events), name)
}
