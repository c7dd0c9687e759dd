//! What holds of runs whose generators are started again where they fail.
#![tactic(auto)]

pub mod laws;
