//! What a message does to the objects.

ghost use Rattle.std.specs.Prelude.{◌≡◌, map};
ghost use Rattle.wl_wire.specs.ArgSights.{seen_arg};
ghost use Rattle.wl_objects.specs.Tracking.{global_of, new_at, new_of, is_delete_id, uint_of};
ghost use Rattle.wl_objects.specs.Tracking.{deleted_of, made_by_message};

use crate::entry::NewObject;
use crate::reading::Reading;
use wl_tables::{Interface, Way, interface_of, max_version, new_interface};
use wl_wire::ArgView;

/// The opcode of the event `wl_display.delete_id`.
const DELETE_ID: u16 = 1;

/// The new object that a message makes.
pub(crate) fn made_by_message(way: Way, reading: &Reading) -> Option<NewObject>
    ensures { result ≡ made_by_message way reading.now }
{
    let made = new_interface(reading.interface, way.is_event(), reading.opcode);
    new_of(made, reading.args.as_slice())
}

/// The id that a message gives free.
pub(crate) fn deleted_of(way: Way, reading: &Reading) -> Option<u32>
    ensures { result ≡ deleted_of way reading.now }
{
    if is_delete_id(reading.interface, way, reading.opcode) {
        uint_of(reading.args.as_slice())
    } else {
        None
    }
}

/// The new object among arguments.
fn new_of(made: Option<Interface>, args: &[ArgView]) -> Option<NewObject>
    ensures { result ≡ new_of made (map seen_arg args.now) }
{
    for arg in args {
        if let Some(new) = new_at(made, arg) {
            return Some(new);
        }
    }
    None
}

/// The new object of an argument.
fn new_at(made: Option<Interface>, arg: &ArgView) -> Option<NewObject>
    ensures { result ≡ new_at made (seen_arg arg.now) }
{
    match arg {
        ArgView::NewId(id) => match made {
            Some(interface) => Some(NewObject {
                id: *id,
                interface: Some(interface),
            }),
            None => None,
        },
        ArgView::Bind { interface, id, .. } => Some(NewObject {
            id: *id,
            interface: global_of(interface),
        }),
        _ => None,
    }
}

/// The global of this name, of those that are shown.
fn global_of(name: &[u8]) -> Option<Interface>
    ensures { result ≡ global_of name.now }
{
    match interface_of(name) {
        Some(interface) => match max_version(interface) {
            Some(_) => Some(interface),
            None => None,
        },
        None => None,
    }
}

/// Whether a message is `wl_display.delete_id`.
fn is_delete_id(interface: Interface, way: Way, opcode: u16) -> bool
    ensures { result ≡ is_delete_id interface way opcode }
{
    match (interface, way) {
        (Interface::WlDisplay, Way::Event) => opcode == DELETE_ID,
        _ => false,
    }
}

/// The unsigned number that stands first.
fn uint_of(args: &[ArgView]) -> Option<u32>
    ensures { result ≡ uint_of (map seen_arg args.now) }
{
    match args {
        [ArgView::Uint(value), ..] => Some(*value),
        _ => None,
    }
}
