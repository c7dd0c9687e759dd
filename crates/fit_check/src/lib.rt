//! Whether a task is fit, which all planning asks for: a test, for tasks that no reader has
//! checked.
#![tactic(auto)]

mod check;
mod conditions;
mod domain;
mod graph;
mod lists;
mod names;
mod problem;
mod roles;
mod rules;
mod slots;
mod sorts;
mod streams;

pub use check::is_fit;
