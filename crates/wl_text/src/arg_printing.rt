//! The text of arguments.

ghost use Rattle.std.specs.Prelude.{◌≡◌, ◌++◌, [], map, OnOk};
ghost use Rattle.wl_wire.specs.ArgSights.{seen_arg};
ghost use Rattle.wl_wire.specs.declared.arguments.Arg.TheVariants as arg_kind;
ghost use Rattle.wl_text.specs.ArgTexts.{object_text, new_text, handle_text, arg_text};
ghost use Rattle.wl_text.specs.ArgTexts.{handles_behind, args_text};

use crate::decimals::{put_number, put_signed};
use crate::enclosed::{Enclosure, put_enclosed};
use std::alloc::AllocError;
use wl_wire::{ArgView, Text};

/// Adds the id of an object, or the sign of null.
fn put_object(out: &mut Text, id: u32) -> Result<(), AllocError>
    ensures { OnOk result (out.new ≡ out.old ++ object_text id) }
{
    if id == 0 {
        out.append(b"null")
    } else {
        out.push(b'@')?;
        put_number(out, id)
    }
}

/// Adds the id of a new object.
fn put_new(out: &mut Text, id: u32) -> Result<(), AllocError>
    ensures { OnOk result (out.new ≡ out.old ++ new_text id) }
{
    out.append(b"new @")?;
    put_number(out, id)
}

/// Adds a number in 1/256.
fn put_fixed(out: &mut Text, value: i32) -> Result<(), AllocError>
    ensures { OnOk result (out.new ≡ out.old ++ arg_text (arg_kind.Fixed value) []) }
{
    put_signed(out, value)?;
    out.append(b"/256")
}

/// Adds what `wl_registry.bind` names.
fn put_bind(out: &mut Text, interface: &[u8], version: u32, id: u32) -> Result<(), AllocError>
    ensures { OnOk result (out.new ≡ out.old ++
        arg_text (arg_kind.Bind interface.now version id) []) }
{
    put_enclosed(out, Enclosure::Quotes, interface)?;
    out.push(b' ')?;
    put_number(out, version)?;
    out.push(b' ')?;
    put_new(out, id)
}

/// Adds the number of the first of the handles that are left.
fn put_handle(out: &mut Text, handles: &[i32]) -> Result<(), AllocError>
    ensures { OnOk result (out.new ≡ out.old ++ handle_text handles.now) }
{
    out.append(b"fd %")?;
    match handles {
        [number, ..] => put_signed(out, *number),
        [] => Ok(()),
    }
}

/// Adds an argument, where these handles are left.
fn put_arg(out: &mut Text, arg: &ArgView, handles: &[i32]) -> Result<(), AllocError>
    ensures { OnOk result (out.new ≡ out.old ++ arg_text (seen_arg arg.now) handles.now) }
{
    match arg {
        ArgView::Int(value) => put_signed(out, *value),
        ArgView::Uint(value) => put_number(out, *value),
        ArgView::Fixed(value) => put_fixed(out, *value),
        ArgView::Str(text) => put_enclosed(out, Enclosure::Quotes, text),
        ArgView::NullStr => out.append(b"null"),
        ArgView::Object(id) => put_object(out, *id),
        ArgView::NewId(id) => put_new(out, *id),
        ArgView::Bind {
            interface,
            version,
            id,
        } => put_bind(out, interface, *version, *id),
        ArgView::Array(content) => put_enclosed(out, Enclosure::Brackets, content),
        ArgView::Handle => put_handle(out, handles),
    }
}

/// The handles that are left behind an argument.
fn handles_behind<'a>(arg: &ArgView, handles: &'a [i32]) -> &'a [i32]
    ensures { result.now ≡ handles_behind (seen_arg arg.now) handles.now }
{
    match (arg, handles) {
        (ArgView::Handle, [_, rest @ ..]) => rest,
        _ => handles,
    }
}

/// Adds all arguments, with a comma between two.
pub(crate) fn put_args(out: &mut Text, args: &[ArgView], handles: &[i32]) -> Result<(), AllocError>
    ensures { OnOk result (out.new ≡ out.old ++ args_text [] (map seen_arg args.now) handles.now) }
{
    let mut left = handles;
    let mut word: &[u8] = b"";
    'items: for arg in args {
        out.append(word)?;
        put_arg(out, arg, left)?;
        left = handles_behind(arg, left);
        word = b", ";
    }
    Ok(())
}
