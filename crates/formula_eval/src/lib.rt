//! When conditions are true: PDDL conditions with derived predicates, over what is known and a
//! state.
#![tactic(auto)]

mod env;
mod lookup;
mod truth;

pub use env::Env;
pub use lookup::{have_types, object_of, objects_at};
pub use truth::holds;
