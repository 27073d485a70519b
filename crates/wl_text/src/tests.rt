//! Messages as text, both ways.

mod long;
mod refused;
mod rows;
mod table;

use crate::{TextFault, TextMessage, append_message, print_message, read_is_text, read_message};
use std::alloc::Global;
use wl_tables::Way;
use wl_wire::Text;

const UP: Way = Way::Request;

const DOWN: Way = Way::Event;

/// The message of a line, and the text of that message.
fn again(alloc: Global, line: &[u8], way: Way) -> Result<(TextMessage, Text), TextFault> {
    read_is_text();
    match read_message(alloc, line, way) {
        Ok(it) => {
            let handles = it.handles.as_slice();
            let text = print_message(alloc, it.interface, way, &it.message, handles)?;
            Ok((it, text))
        }
        Err(fault) => Err(fault),
    }
}

/// The text of a line's message, behind a text that stands already.
fn behind(text: &mut Text, alloc: Global, line: &[u8], way: Way) -> Result<(), TextFault> {
    read_is_text();
    match read_message(alloc, line, way) {
        Ok(it) => {
            append_message(text, it.interface, way, &it.message, it.handles.as_slice())?;
            Ok(())
        }
        Err(fault) => Err(fault),
    }
}
