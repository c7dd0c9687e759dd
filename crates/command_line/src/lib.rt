//! The words after the program's name, read as a command of the planner.
#![tactic(auto)]

mod config;
mod fault;
mod generate;
pub mod laws;
mod line;
mod migrate;
mod number;
mod play;
mod replay;
mod solve;
mod task;
mod usage;
mod words;

pub use config::{Config, PlayConfig, ReplayConfig, SolveConfig};
pub use fault::WordsFault;
pub use number::{DEFAULT_CALLS, DEFAULT_DEPTH, DEFAULT_STATES, LATEST_PROTOCOL, MOST_RESTARTS};
pub use usage::usage_text;
pub use words::read_words;
