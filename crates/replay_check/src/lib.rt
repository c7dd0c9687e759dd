//! Whether a report is right: its head, each entry of its transcript, and its outcome; and if not,
//! where and why.
#![tactic(auto)]

mod asks;
mod bounds;
mod claims;
mod dreams;
mod entries;
mod finding;
mod head;
mod judging;
pub mod laws;
mod origins;
mod outcome;
mod picks;
mod plan;
mod read_back;
mod requests;
mod standing;
mod turns;
mod verdict;

pub use judging::{replay, replay_whole};
pub use read_back::plan_of;
pub use verdict::{BreachKind, Judged, RightReport, Verdict};
