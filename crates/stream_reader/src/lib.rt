//! Stream files, from trees.
#![tactic(auto)]

mod atoms;
mod cycles;
mod names;
mod reader;
mod streams;
mod tables;

pub use reader::read_streams;
