//! The three texts of a task, from bytes to a domain, a problem and streams.
//!
//! A text that is refused has one fault with its place: a fault of its tree, which bytes alone
//! show, or else a fault of its form or its names.
#![tactic(auto)]

pub mod laws;
mod refusal;
mod texts;

pub use refusal::{FaultKind, InputRefusal};
pub use texts::{TEXT_BYTES, domain_in, problem_in, streams_in};
