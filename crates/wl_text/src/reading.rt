//! The message of a text.

ghost use Rattle.wl_text.specs.Answers.{Answers};
ghost use Rattle.wl_text.specs.Text.{Reads, last_args_at, message_from, message_of};

use crate::arg_reading::{TextArgs, args_at};
use crate::front::behind;
use crate::head::{Head, head_at};
use crate::text_message::{TextFault, TextMessage};
use std::alloc::Global;
use wl_tables::Way;
use wl_wire::{Signature, build, fits_message};

/// The arguments, which end with the line.
#[tactic(auto, unfolding(crate::specs::Text::last_args_at))]
fn last_args_at(alloc: Global, signature: &Signature, text: &[u8]) -> Result<TextArgs, TextFault>
    ensures { Answers result (last_args_at signature.now text.now) }
{
    let (said, rest) = args_at(alloc, signature, text)?;
    match behind(b")", rest) {
        Some([]) => Ok(said),
        _ => Err(TextFault::Form),
    }
}

/// The message of these arguments, unless it is too long.
#[tactic(auto, unfolding(crate::specs::Text::message_from))]
fn message_from(alloc: Global, head: &Head, said: TextArgs) -> Result<TextMessage, TextFault>
    ensures { Reads result (message_from head.now said) }
{
    if !fits_message(&said.args) {
        return Err(TextFault::Form);
    }
    Ok(TextMessage {
        message: build(alloc, head.object, head.opcode, &said.args)?,
        interface: head.interface,
        handles: said.handles,
    })
}

/// The message whose text a line is, of a request or an event.
///
/// # Errors
/// `Form` exactly where the line is the text of no message of that way, `Memory` where memory runs
/// out.
#[tactic(auto, unfolding(crate::specs::Text::message_of))]
pub fn read_message(alloc: Global, line: &[u8], way: Way) -> Result<TextMessage, TextFault>
    ensures exact { Reads result (message_of way line.now) }
{
    match head_at(way, line) {
        Some((head, rest)) => {
            let said = last_args_at(alloc, &head.signature, rest)?;
            message_from(alloc, &head, said)
        }
        None => Err(TextFault::Form),
    }
}
