//! Stream instances whose domain facts are known, found by joins over what any look-up shows.
#![tactic(auto)]

mod order;
mod reach;
mod search;

pub use order::Names;
pub use reach::{is_reachable, stream_of};
pub use search::{Sought, found_instances};
