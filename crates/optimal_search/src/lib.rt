//! Search for a cheapest plan.
#![tactic(auto)]

mod agenda;
mod astar;
mod consistent;
mod fewest;
mod goal;
mod relax;
mod search;
mod share;
mod shares;

pub use astar::cheapest;
pub use consistent::Consistent;
pub use fewest::Fewest;
pub use shares::Shares;
