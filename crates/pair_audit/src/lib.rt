//! Whether the two sides of a pair of Wayland proxies agree on the bytes of the link between them,
//! by what each of them kept of its connections.
#![tactic(auto)]

mod lanes;
mod lines;
mod trails;

pub use lines::audit_lines;
pub use pair_laws::Differs;
pub use trails::{Agreed, audit};

#[cfg(test)]
mod tests;
