//! Why no frame is lost or comes twice between two sides of a link that breaks and is made again:
//! what a side keeps of its connections, as plain data, and the laws over two sides. Beside them
//! stands a plain program that computes the same from the bytes, frame by frame.
#![tactic(auto)]

mod laws;
mod plain;

pub use laws::{
    connection_is_kept, drained_has_all, each_once, fault_falls, heard_by_steps, idle_has_no_front,
    next_is_due, none_lost, quiet_is_done, ring_is_kept, same_by_cases, standing_is_wire,
    steps_stand, unspoiled, up_stands, wrong_sides,
};
pub use plain::{Heard, PlainLine, hear_lines};

#[cfg(test)]
mod tests;
