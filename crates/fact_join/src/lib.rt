//! Conjunctive queries over what is known: all tuples of objects that satisfy some atoms, found by
//! joins.
#![tactic(auto)]

mod front;
mod joins;
mod lead;
mod listed;
mod partial;
mod query;
mod start;

pub use partial::Partial;
pub use query::{JoinFault, Query, QueryAtom, Wanted};
pub use start::join;
