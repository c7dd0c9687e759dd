//! Whether what a report says of dreams is right: that a plan rests on what is supposed, or that
//! none does.
#![tactic(auto)]

mod dream;
pub mod laws;
mod needed;
mod none;
mod point;
mod steps;
mod table;
mod uses;

pub use dream::{Dreamed, judge_dream};
pub use none::judge_none;
pub use point::Point;
