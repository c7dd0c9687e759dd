//! The commands that ask children: `solve`, and `generate`, which solves a task that it makes.
#![tactic(auto)]

mod dispatch;
mod head;
mod maker;
mod restarts;
mod solver;

pub use maker::make;
pub use solver::solve;
