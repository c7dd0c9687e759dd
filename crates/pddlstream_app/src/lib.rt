//! The planner's commands over files, generators and a sink that are handed in.
#![tactic(auto)]

mod answer;
mod command;
mod deorder;
mod job;
mod migrate;
mod play;
mod replay;
mod said;

pub use command::run;
pub use command_files::Status;
