//! Children of a host as boxed objects: one is a program of its own, others may be anything that
//! meets the same trait.
#![tactic(auto)]

mod box_host;
mod child;
mod generator;
mod members;

pub use box_host::BoxHost;
pub use child::ChildGen;
pub use generator::Generator;
pub use members::add_idle;
