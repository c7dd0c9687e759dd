//! Tasks whose deletes are ignored, and what is left to the goal there.
#![tactic(auto)]

mod conditions;
mod costs;
mod facts;
mod guide;
mod inner;
mod lists;
mod net;
mod plan;
mod queue;
mod reached;
mod rules;
mod seen;
mod steps;
mod task;
mod tuples;

pub use guide::{Guide, Sight};
pub use task::RelaxedTask;
