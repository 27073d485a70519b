//! What a message does that matters to a sending half.

ghost use Rattle.std.specs.Prelude.{◌≡◌};
ghost use Rattle.half_model.specs.Deeds.{deed_of, deed_of_request, deed_of_event, deed_of_surface};
ghost use Rattle.half_model.specs.Deeds.{deed_of_pool, pool_made, resized, buffer_made, attached};
ghost use Rattle.half_model.specs.Deeds.{surface_made, surface_damaged, buffer_damaged, scaled};
ghost use Rattle.half_model.specs.Deeds.{transformed, keymap_given, takes_note};

use half_model::Deed;
use shm_pools::Buffer;
use surface_damage::Rect;
use wl_objects::Passed;
use wl_tables::{Interface, Way};
use wl_wire::Arg;

/// What a message does, as tracking found it.
pub fn deed_of(way: Way, it: &Passed) -> Deed
    ensures { result ≡ deed_of way it.now }
{
    let args = it.args.as_slice();
    match way {
        Way::Request => deed_of_request(it.interface, it.opcode, args),
        Way::Event => deed_of_event(it.interface, it.opcode, args),
    }
}

/// Whether such a message takes the oldest waiting note.
pub(crate) fn takes_note(deed: Deed) -> bool
    ensures { result ≡ takes_note deed }
{
    match deed {
        Deed::Commit => true,
        Deed::Keymap { size: _ } => true,
        _ => false,
    }
}

fn deed_of_request(interface: Interface, opcode: u16, args: &[Arg]) -> Deed
    ensures { result ≡ deed_of_request interface opcode args.now }
{
    match interface {
        Interface::WlShm => {
            if opcode == 0 {
                pool_made(args)
            } else {
                Deed::Other
            }
        }
        Interface::WlShmPool => deed_of_pool(opcode, args),
        Interface::WlCompositor => {
            if opcode == 0 {
                surface_made(args)
            } else {
                Deed::Other
            }
        }
        Interface::WlSurface => deed_of_surface(opcode, args),
        _ => Deed::Other,
    }
}

fn deed_of_event(interface: Interface, opcode: u16, args: &[Arg]) -> Deed
    ensures { result ≡ deed_of_event interface opcode args.now }
{
    match interface {
        Interface::WlKeyboard => {
            if opcode == 0 {
                keymap_given(args)
            } else {
                Deed::Other
            }
        }
        _ => Deed::Other,
    }
}

fn deed_of_pool(opcode: u16, args: &[Arg]) -> Deed
    ensures { result ≡ deed_of_pool opcode args.now }
{
    match opcode {
        0 => buffer_made(args),
        2 => resized(args),
        _ => Deed::Other,
    }
}

fn deed_of_surface(opcode: u16, args: &[Arg]) -> Deed
    ensures { result ≡ deed_of_surface opcode args.now }
{
    match opcode {
        0 => Deed::EndSurface,
        1 => attached(args),
        2 => surface_damaged(args),
        6 => Deed::Commit,
        7 => transformed(args),
        8 => scaled(args),
        9 => buffer_damaged(args),
        _ => Deed::Other,
    }
}

fn pool_made(args: &[Arg]) -> Deed
    ensures { result ≡ pool_made args.now }
{
    match args {
        [Arg::NewId(pool), Arg::Handle, Arg::Int(size)] => Deed::MakePool {
            pool: *pool,
            size: *size,
        },
        _ => Deed::Other,
    }
}

fn resized(args: &[Arg]) -> Deed
    ensures { result ≡ resized args.now }
{
    match args {
        [Arg::Int(size)] => Deed::Resize { size: *size },
        _ => Deed::Other,
    }
}

fn buffer_made(args: &[Arg]) -> Deed
    ensures { result ≡ buffer_made args.now }
{
    match args {
        [
            Arg::NewId(buffer),
            Arg::Int(offset),
            Arg::Int(width),
            Arg::Int(height),
            Arg::Int(stride),
            Arg::Uint(format),
        ] => {
            Deed::MakeBuffer {
                buffer: *buffer,
                shape: Buffer {
                    offset: *offset,
                    width: *width,
                    height: *height,
                    stride: *stride,
                    format: *format,
                },
            }
        }
        _ => Deed::Other,
    }
}

fn surface_made(args: &[Arg]) -> Deed
    ensures { result ≡ surface_made args.now }
{
    match args {
        [Arg::NewId(surface)] => Deed::MakeSurface { surface: *surface },
        _ => Deed::Other,
    }
}

fn attached(args: &[Arg]) -> Deed
    ensures { result ≡ attached args.now }
{
    match args {
        [Arg::Object(buffer), Arg::Int(_), Arg::Int(_)] => Deed::Attach { buffer: *buffer },
        _ => Deed::Other,
    }
}

fn surface_damaged(args: &[Arg]) -> Deed
    ensures { result ≡ surface_damaged args.now }
{
    match args {
        [Arg::Int(x), Arg::Int(y), Arg::Int(w), Arg::Int(h)] => Deed::DamageSurface {
            rect: Rect {
                x: *x,
                y: *y,
                w: *w,
                h: *h,
            },
        },
        _ => Deed::Other,
    }
}

fn buffer_damaged(args: &[Arg]) -> Deed
    ensures { result ≡ buffer_damaged args.now }
{
    match args {
        [Arg::Int(x), Arg::Int(y), Arg::Int(w), Arg::Int(h)] => Deed::DamageBuffer {
            rect: Rect {
                x: *x,
                y: *y,
                w: *w,
                h: *h,
            },
        },
        _ => Deed::Other,
    }
}

fn transformed(args: &[Arg]) -> Deed
    ensures { result ≡ transformed args.now }
{
    match args {
        [Arg::Int(transform)] => Deed::Transform {
            transform: *transform,
        },
        _ => Deed::Other,
    }
}

fn scaled(args: &[Arg]) -> Deed
    ensures { result ≡ scaled args.now }
{
    match args {
        [Arg::Int(scale)] => Deed::Scale { scale: *scale },
        _ => Deed::Other,
    }
}

fn keymap_given(args: &[Arg]) -> Deed
    ensures { result ≡ keymap_given args.now }
{
    match args {
        [Arg::Uint(_), Arg::Handle, Arg::Uint(size)] => Deed::Keymap { size: *size },
        _ => Deed::Other,
    }
}
