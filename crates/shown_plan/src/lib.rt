//! How a plan is shown as the outcome of a run: its steps by name, and the calls from which its
//! generated objects came.
#![tactic(auto)]

pub mod laws;
mod names;
mod origins;
mod plan;
mod source;
mod sources;
mod steps;

pub use plan::{plan_origins, plan_outcome};
pub use steps::name_steps;
