//! The text of a message.

ghost use Rattle.std.specs.Prelude.{◌≡◌, ◌++◌, map, OnOk, IfOk};
ghost use Rattle.wl_wire.specs.ArgSights.{seen_arg};
ghost use Rattle.wl_text.specs.Text.{CanPrint, start_text, call_text, text_of};

use crate::arg_printing::put_args;
use crate::decimals::put_number;
use std::alloc::{AllocError, Global};
use wl_tables::{Interface, Way, interface_name, message_name, signature};
use wl_wire::{ArgView, Message, Text, scan};

/// Adds the interface and the object.
fn put_start(out: &mut Text, interface: Interface, object: u32) -> Result<(), AllocError>
    ensures { OnOk result (out.new ≡ out.old ++ start_text interface object) }
{
    out.append(interface_name(interface).as_bytes())?;
    out.push(b'@')?;
    put_number(out, object)
}

/// Adds the name and the arguments.
fn put_call(out: &mut Text, name: &str, args: &[ArgView], handles: &[i32]) -> Result<(), AllocError>
    ensures { OnOk result (out.new ≡ out.old ++
        call_text name.now (map seen_arg args.now) handles.now) }
{
    out.push(b'.')?;
    out.append(name.as_bytes())?;
    out.push(b'(')?;
    put_args(out, args, handles)?;
    out.push(b')')
}

/// The text of a message of an object of this interface. `handles` are the numbers of the handles
/// that it carries, in order. The message needs its row's arguments and as many numbers as its row
/// has handles.
///
/// # Errors
/// Only where memory runs out.
pub fn print_message(
    alloc: Global,
    interface: Interface,
    way: Way,
    m: &Message,
    handles: &[i32],
) -> Result<Text, AllocError>
    requires { CanPrint interface way m.now handles.now }
    ensures { IfOk result (λ text. text ≡ text_of interface way m.now handles.now) }
{
    let mut out = Text::new(alloc);
    append_message(&mut out, interface, way, m, handles)?;
    Ok(out)
}

/// Adds the text of a message at the end of another text, under the conditions of `print_message`.
///
/// # Errors
/// Only where memory runs out; a part of the text may then stand there.
pub fn append_message(
    out: &mut Text,
    interface: Interface,
    way: Way,
    m: &Message,
    handles: &[i32],
) -> Result<(), AllocError>
    requires { CanPrint interface way m.now handles.now }
    ensures { OnOk result (out.new ≡ out.old ++ text_of interface way m.now handles.now) }
{
    let events = way.is_event();
    let opcode = m.opcode();
    let signature = signature(interface, events, opcode);
    match (signature, message_name(interface, events, opcode)) {
        (Some(signature), Some(name)) => match scan(&signature, m) {
            Ok(args) => {
                put_start(out, interface, m.object())?;
                put_call(out, name, args.as_slice(), handles)
            }
            Err(_) => unreachable!("the arguments are good"),
        },
        _ => unreachable!("the table has the message"),
    }
}
