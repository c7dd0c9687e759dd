//! Problems, from trees.
#![tactic(auto)]

mod atoms;
mod facts;
mod items;
pub mod laws;
mod objects;
mod problem;
mod reader;
mod tables;
mod values;

pub use reader::read_problem;
