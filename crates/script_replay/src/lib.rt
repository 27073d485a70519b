//! A replay of a whole script: its lines drive both proxies of a pair, with their records and
//! their peers, and the link between them.
//!
//! [`replay`] does the lines one by one, and then rounds until one changes nothing. What it answers
//! is the last state of a run of the script; [`let_go`] lets it go.
#![tactic(auto)]

mod coming;
mod failures;
mod letting_go;
mod lines;
mod linking;
mod moving;
mod replaying;
mod rounds;
mod run;
mod sending;

pub use letting_go::let_go;
pub use replaying::replay;
