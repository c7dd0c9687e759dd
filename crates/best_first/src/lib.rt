//! Search for plans, complete within a number of states.
#![tactic(auto)]

mod additive;
mod best;
mod estimate;
mod expand;
mod explore;
mod found;
mod plans;
mod reach;
mod relaxed_plan;
mod steady;
mod tree;
mod way;

pub use additive::Additive;
pub use estimate::{Blind, Estimate, GoalCount};
pub use expand::{Taken, take_step};
pub use explore::MOST_CANDIDATES;
pub use found::Found;
pub use plans::{exceeds, is_solvable_within, search};
pub use reach::out_of_reach;
pub use relaxed_plan::RelaxedPlan;
pub use tree::Link;
pub use way::path;
