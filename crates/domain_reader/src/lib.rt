//! Domains, from trees.
#![tactic(auto)]

mod changes;
mod cycles;
mod domain;
mod effects;
mod items;
mod once;
mod reader;
mod roles;
mod tables;

pub use once::check_second_items;
pub use reader::read_domain;
pub use tables::{add_named, name_of};
