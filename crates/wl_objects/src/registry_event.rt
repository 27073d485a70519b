//! What an event of a registry tells.

ghost use Rattle.std.specs.Prelude.{◌≡◌, map};
ghost use Rattle.wl_wire.specs.ArgSights.{seen_arg};
ghost use Rattle.wl_objects.specs.Registry.{greatest_version, event_of};

use wl_tables::{interface_of, max_version};
use wl_wire::ArgView;

/// What an event of a registry tells.
#[derive(Clone, Copy)]
pub(crate) enum RegistryEvent {
    /// A global of this name and version, and the greatest version of its interface that is shown,
    /// if any is.
    Global(u32, u32, Option<u32>),
    /// The global of this name is gone.
    Remove(u32),
    Other,
}

/// The opcodes of a registry's events.
const GLOBAL: u16 = 0;

const GLOBAL_REMOVE: u16 = 1;

/// The greatest version that is shown of the interface with a name.
fn greatest_version(name: &[u8]) -> Option<u32>
    ensures { result ≡ greatest_version name.now }
{
    match interface_of(name) {
        Some(interface) => max_version(interface),
        None => None,
    }
}

/// What a registry's event tells.
pub(crate) fn event_of(opcode: u16, args: &[ArgView]) -> RegistryEvent
    ensures { result ≡ event_of opcode (map seen_arg args.now) }
{
    match args {
        [
            ArgView::Uint(name),
            ArgView::Str(text),
            ArgView::Uint(version),
        ] => if opcode == GLOBAL {
            RegistryEvent::Global(*name, *version, greatest_version(text))
        } else {
            RegistryEvent::Other
        },
        [ArgView::Uint(name)] => if opcode == GLOBAL_REMOVE {
            RegistryEvent::Remove(*name)
        } else {
            RegistryEvent::Other
        },
        _ => RegistryEvent::Other,
    }
}
