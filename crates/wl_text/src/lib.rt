//! Messages of the Wayland protocol as text: `wl_surface@5.attach(@7, 0, 0)`.
#![tactic(auto)]

mod arg_printing;
mod arg_reading;
mod decimals;
mod enclosed;
mod front;
mod head;
mod laws;
mod printing;
mod reading;
mod text_message;

pub use laws::{line_is_one_message, printed_is_read, read_is_text, text_is_visible};
pub use printing::{append_message, print_message};
pub use reading::read_message;
pub use text_message::{TextFault, TextMessage};

#[cfg(test)]
mod tests;
