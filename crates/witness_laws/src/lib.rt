//! Laws of an example, by which the premises of the program's clauses are met, and of what the
//! definitions refuse.
#![tactic(auto)]

pub mod laws;
pub mod refusals;
