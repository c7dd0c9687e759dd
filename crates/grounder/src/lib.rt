//! The actions that are applicable in a state, with their arguments.
#![tactic(auto)]

mod actions;
mod asks;
mod atoms;
mod candidates;
mod finder;
mod steps;

pub use actions::applicable;
pub use atoms::{fluent_atom, tops};
pub use candidates::Candidates;
pub use finder::StepFinder;
