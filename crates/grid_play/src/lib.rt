//! A plan acted out on the grid: its blocks are moved step by step, and the first fault is told.
//!
//! [`act`] takes a grid and the steps of a plan, and [`play_text`] writes what came of it. The
//! streams and steps of the grid are this project's.
#![tactic(auto)]

mod clash;
mod moves;
mod play;
mod scene;
mod text;
mod world;

pub use moves::Move;
pub use play::{Mark, Play, PlayVerdict, act};
pub use text::play_text;
