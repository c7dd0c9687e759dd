//! States, each kept once and known by a number.
#![tactic(auto)]

mod edits;
mod rows;
mod store;

pub use rows::{AtomSet, numbers_of};
pub use store::StateStore;
