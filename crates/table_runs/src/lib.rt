//! What holds of runs whose generators answer by a table.
#![tactic(auto)]

pub mod laws;
