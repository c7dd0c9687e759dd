//! The core of the dialogue with generators: which requests are made, what they were answered, and
//! what is known by it, whatever the order in which children answer. It starts nothing and reads
//! nothing.
#![tactic(auto)]

mod cell;
mod fault;
pub mod laws;
mod room;
mod round;
mod session;

pub use fault::{CoreFault, Heard};
pub use session::Session;
