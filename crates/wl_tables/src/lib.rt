//! The interfaces and messages of the Wayland protocol that are carried: one table of the
//! protocol's core and of the stable xdg-shell, and what it says of a message.
#![tactic(auto)]

mod core_rows;
mod interface;
mod laws;
mod lookups;
mod messages;
mod rows;
mod shell_rows;
mod way;

pub use interface::{Interface, interface_name, interface_of, max_version};
pub use laws::{interface_tells_name, opcode_tells_name};
pub use lookups::{handle_kind, message_name, new_interface, opcode_of, signature};
pub use way::Way;

#[cfg(test)]
mod tests;
