//! The order of a plan's steps, as text.
#![tactic(auto)]

mod fields;
mod text;

pub use text::order_text;
