//! Runs in any mode, turn by turn: what is decided before each turn, and the loop over them.
#![tactic(auto)]

mod asks;
mod decide;
mod plans;
mod print;
mod search;
mod situation;
mod turn_loop;
mod turns;
mod whole_run;

pub use asks::ask_behind;
pub use plans::known_plan;
pub use round_run::{Batch, Desk, RunFault};
pub use search::PlanSearch;
pub use situation::{Situation, situation_on};
pub use turns::{Turned, Turns};
pub use whole_run::{Ran, run_mode};
