//! Names, facts and values that are laid over a store of what is known, which stays as it is.
#![tactic(auto)]

mod layer;
mod more;

pub use layer::Layer;
pub use more::More;
