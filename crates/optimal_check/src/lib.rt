//! The cheapest plan over what the answers of a report certify, and whether the plan that it shows
//! costs as little.
#![tactic(auto)]

mod least;
mod replay;

pub use least::least_cost;
pub use replay::replay_optimal;
