//! The map of generators: which program answers which stream, with how many workers.
//!
//! A map is a JSON text,
//! `{"pools":[{"run":["prog","word"],"workers":2,"streams":["place","grasp"]}]}`; without one, a
//! program's words stand for a pool of all streams. What is accepted gives the pools of a run with
//! the numbers of their children, and what is refused the first fault.
#![tactic(auto)]

mod fault;
mod form;
mod grid;
pub mod laws;
mod map;
mod names;
mod pool_text;
mod pools;
mod served;
mod workers;

pub use fault::MapFault;
pub use grid::{grid_path, with_grid};
pub use map::{one_pool, read_map};
pub use pools::GRID_CHILD;
