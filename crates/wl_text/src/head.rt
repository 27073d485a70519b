//! The front of a message's text, up to its arguments.

ghost use Rattle.std.specs.Prelude.{◌≡◌, true, false};
ghost use Rattle.wl_text.specs.Front.{read_view};
ghost use Rattle.wl_text.specs.Text.{head_at};
ghost use Rattle.wl_tables.specs.Ways.{is_event};

use crate::decimals::number_at;
use crate::front::{behind, split_before};
use wl_tables::{Interface, Way, interface_of, opcode_of, signature};
use wl_wire::Signature;

/// What stands before the arguments: `wl_surface@5.attach`.
#[derive(Drop)]
pub(crate) struct Head {
    /// The interface that is named.
    pub(crate) interface: Interface,
    /// The object.
    pub(crate) object: u32,
    /// The place of the message's name in the table.
    pub(crate) opcode: u16,
    /// The places of its arguments.
    pub(crate) signature: Signature,
}

/// The front up to the parenthesis, of a request or an event.
#[tactic(auto, unfolding(crate::specs::Text::head_at))]
pub(crate) fn head_at(way: Way, line: &[u8]) -> Option<(Head, &[u8])>
    ensures { read_view result ≡ head_at way line.now }
{
    let events = way.is_event();
    let (name, rest) = split_before(b'@', line)?;
    let interface = interface_of(name)?;
    let (object, rest) = number_at(rest)?;
    let rest = behind(b".", rest)?;
    let (name, rest) = split_before(b'(', rest)?;
    let opcode = opcode_of(interface, events, name)?;
    let signature = signature(interface, events, opcode)?;
    let head = Head {
        interface,
        object,
        opcode,
        signature,
    };
    Some((head, rest))
}
