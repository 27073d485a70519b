//! Dials over TCP on the loopback interface, and in memory. No clause can say what a socket carries,
//! so these tell no content.
#![tactic(auto)]

mod line_ends;
mod memory_callers;
mod sockets;
mod tcp_dials;
mod tcp_lines;
mod tcp_pairs;

pub use tcp_dials::TcpDial;
pub use tcp_lines::TcpLine;
pub use tcp_pairs::TcpDials;

#[cfg(test)]
mod tests;
