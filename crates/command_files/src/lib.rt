//! The files of a command: what is read, in which order, and why a run ends at one of them.
#![tactic(auto)]

mod maps;
mod status;
mod stop;
mod texts;

pub use maps::{GridRead, meant_pools, place_grid, read_grid_file};
pub use status::Status;
pub use stop::{FileRole, MEMORY, Stop, Text};
pub use texts::{Reported, TaskPaths, read_file, read_reported, read_task};
