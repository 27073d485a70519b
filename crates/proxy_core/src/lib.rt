//! One proxy of the pair: it carries the messages of its peer over a link that may go at any byte
//! and come back, and gives its peer what the other side has for it.
#![tactic(auto)]

mod closing;
mod counting;
mod fronts;
mod link;
mod machine;
mod making;
mod past;
mod proxy;

pub use proxy::Proxy;
pub use side_model::ProxyFault;
