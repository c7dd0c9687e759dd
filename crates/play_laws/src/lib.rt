//! What holds of plans that are acted out on the grid.
#![tactic(auto)]

pub mod laws;
