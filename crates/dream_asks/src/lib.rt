//! Which entries of a dream are asked, batch by batch.
#![tactic(auto)]

mod answers;
mod asks;
mod first;
mod gone;
pub mod laws;

pub use asks::{DreamAsk, dues_of};
pub use first::first_asks;
pub use gone::Gone;
