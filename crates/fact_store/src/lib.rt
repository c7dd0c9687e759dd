//! A store of what is known: the objects' names, the facts about them, and the values of functions.
#![tactic(auto)]

mod fact_table;
mod facts;
mod initial;
mod scan;
mod stored_fact;
mod table;
mod value_table;

pub use fact_table::FactTable;
pub use facts::{Facts, MOST_NAMES};
pub use initial::add_supertypes;
pub use value_table::ValueTable;
