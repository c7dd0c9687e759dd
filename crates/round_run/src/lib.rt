//! The desk of a run, and rounds over several children: all requests of a round are written before
//! its first answer is heard.
#![tactic(auto)]

mod batches;
mod child;
mod desk;
mod ending;
mod entry_print;
mod fault;
mod lines;
mod marks;
mod round;

pub use desk::Desk;
pub use ending::Batch;
pub use fault::RunFault;
