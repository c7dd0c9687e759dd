//! Whether a plan is valid: the validator's call over files and a sink that are handed in.
#![tactic(auto)]

mod command;
mod judge;
pub mod laws;
mod local;
mod outcome;
mod part;
mod report;
mod status;
mod step;
mod stop;
mod texts;
mod verdict;
mod words;

pub use command::run;
pub use status::Status;
