//! When conditions are true, where each derived atom is judged once.
#![tactic(auto)]

mod choice;
mod holds;
mod judge;
pub mod laws;
mod lead;
mod memo;
mod scene;
mod tries;

pub use holds::{holds_memo, holds_once, holds_with};
pub use memo::Memo;
