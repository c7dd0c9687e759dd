//! What the names in a text stand for.
#![tactic(auto)]

mod conditions;
mod cycles;
mod declarations;
mod formulas;
mod graph;
mod names;
mod number_lists;
mod scope;
mod signatures;
mod terms;
mod texts;
mod variables;
mod vocabulary;

pub use conditions::{check_condition, check_conditions};
pub use cycles::{Candidate, check_cycles};
pub use declarations::{TypedNames, declare_groups, declared_of};
pub use formulas::{condition_of, single_of};
pub use graph::{ascending, is_cyclic, reached_from};
pub use names::NameTable;
pub use number_lists::NumberLists;
pub use scope::Scope;
pub use signatures::Signatures;
pub use terms::{
    check_application, check_terms, check_use, declared_place, pattern_of, small_number, term_of,
    terms_of, width,
};
pub use texts::{body_of, check_repeated, text_of, value_at};
pub use variables::{
    check_doubles, check_scope, check_types, check_variables, enter, is_named, is_type,
    named_sorts, next, number, sort_of, unless,
};
pub use vocabulary::Vocabulary;
