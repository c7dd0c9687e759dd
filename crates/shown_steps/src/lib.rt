//! Steps as they are shown, read back by their names and taken one after another over what is
//! known.
#![tactic(auto)]

mod names;
mod naming;
mod plan;
mod steps;

pub use names::Named;
pub use naming::{instance_of, objects_of, step_of, stream_named};
pub use plan::is_plan;
pub use steps::{Ran, Run, run_steps};
