//! The worked tasks: their texts, and the fit task that each of them spells.
#![tactic(auto)]

mod chain;
mod reading;
mod texts;

pub use chain::{CHAIN, WALK, chain_problem};
pub use reading::{Texts, task};
pub use texts::{ARM, FETCH, GRID, KEEP, LAMPS, SAME, SOW, TWO};
