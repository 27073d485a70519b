//! Before which messages a peer puts a note on its wire.

ghost use Rattle.std.specs.Prelude.{◌≡◌};
ghost use Rattle.script_peers.specs.Putting.{wants_note};

use wl_tables::Interface;
use wp_outside::Side;

/// The opcode of `wl_surface.commit` among the requests of its interface.
pub const COMMIT: u16 = 6;

/// The opcode of `wl_keyboard.keymap` among the events of its interface.
pub const KEYMAP: u16 = 0;

/// Whether a note goes before a message: before a commit of the application, and before a keymap
/// of the compositor.
pub(crate) fn wants_note(peer: Side, interface: Interface, opcode: u16) -> bool
    ensures { result ≡ wants_note peer interface opcode }
{
    match (peer, interface) {
        (Side::Near, Interface::WlSurface) => opcode == COMMIT,
        (Side::Far, Interface::WlKeyboard) => opcode == KEYMAP,
        _ => false,
    }
}
