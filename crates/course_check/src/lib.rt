//! The judge's check that the entries of a report take the course that its mode lays down: where in
//! a turn a transcript stands, and what may come next.
#![tactic(auto)]

mod batch;
mod copied;
mod course;
pub mod laws;
mod point;
mod running;

pub use course::ModeCourse;
pub use point::BatchPoint;
