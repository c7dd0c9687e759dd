//! Laws of whole runs and of the program: what a run's text names, what a replay says of it, what comes of it
//! where the grid answers, and which values the limits have.
#![tactic(auto)]

pub mod grids;
pub mod limits;
pub mod replays;
pub mod runs;
pub mod texts;
