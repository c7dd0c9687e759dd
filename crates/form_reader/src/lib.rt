//! The forms of domains, problems and stream files: which words and lists may stand where.
#![tactic(auto)]

mod atoms;
mod conditions;
mod effects;
mod fault;
mod groups;
mod items;
mod keys;
pub mod laws;
mod refused;
mod texts;
mod words;

pub use effects::is_total_cost;
pub use fault::{Fault, InputFault, InputKind, sooner};
pub use groups::{Spot, head_of, inner_of, is_dash, tail_of};
pub use items::{Item, TextKind};
pub use keys::{Key, Keyed};
pub use texts::check_form;
pub use words::{
    ConditionHead, EffectHead, WordSort, condition_head_of, effect_head_of, is_keyword,
    is_predicate_name, is_variable,
};
