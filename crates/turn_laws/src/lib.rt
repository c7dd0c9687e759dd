//! Laws of dreams, of the turns of the four modes, and of plain runs.
#![tactic(auto)]

pub mod dreams;
pub mod modes;
pub mod plain;
