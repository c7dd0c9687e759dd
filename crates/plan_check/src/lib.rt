//! Steps and plans, checked: the initial state, what a step does and costs, and whether a plan is
//! valid.
#![tactic(auto)]

mod cost;
mod effect;
mod fault;
mod plan;
mod start;
mod step;

pub use effect::{Changes, after, changes_of, pattern_atoms};
pub use fault::{CheckFault, StepFault};
pub use plan::{check, meets_goal};
pub use start::initial;
pub use step::{Applied, advance, apply, cost as step_cost};
