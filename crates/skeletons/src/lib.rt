//! The dreams that adaptive mode keeps, and which of them is picked (PDDLStream 2020; the order of
//! picks is this project's).
#![tactic(auto)]

mod skeletons;

pub use skeletons::{Skeleton, count, keep, pick_of};
