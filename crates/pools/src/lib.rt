//! Pools of workers: which of them answers for a stream, which of its children is asked, and how
//! many asks make a round.
#![tactic(auto)]

mod front;
mod workers;

pub use front::longest_front;
pub use workers::{Workers, child_of, workers_in};
