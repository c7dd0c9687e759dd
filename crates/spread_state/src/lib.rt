//! A state that is kept in many small sets, so that a step takes no longer where more atoms are true.
#![tactic(auto)]

mod advance;
mod board;
mod cells;
mod truth;

pub use board::Board;
pub use cells::{CELLS, SpreadState};
