//! Conditions as PDDL text, with the names of objects in place of parameters.
#![tactic(auto)]

mod naming;
mod put;

pub use naming::Naming;
