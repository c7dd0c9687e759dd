//! Solving in each of four modes: incremental mode asks whole levels; focused, binding and adaptive
//! mode dream plans over what may be supposed, and ask what these need (PDDLStream 2020).
#![tactic(auto)]

mod adaptive_mode;
mod all_batches;
mod batches;
mod behind;
mod binding_mode;
mod dream_turns;
mod dreamless;
mod dreamt;
mod finders;
mod first_batch;
mod focused_mode;
mod incremental_mode;
mod level_turns;
mod optimal_mode;
mod picks;

pub use adaptive_mode::adaptive;
pub use binding_mode::binding;
pub use focused_mode::focused;
pub use incremental_mode::incremental;
pub use optimal_mode::optimal;
pub use turn_run::{Ran, RunFault};
