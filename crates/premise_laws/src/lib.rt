//! Laws by which the premises of the program's clauses are met in an example.
#![tactic(auto)]

pub mod laws;
