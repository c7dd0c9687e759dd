//! Plans as planners write them: a step a line, read into calls by name.
#![tactic(auto)]

mod claim;
mod fault;
mod line;
mod plan;
mod step;

pub use claim::claimed_cost;
pub use plan::{PLAN_BYTES, plan_in};
