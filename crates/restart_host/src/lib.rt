//! A host over another, whose children are started again where they fail.
#![tactic(auto)]

mod held;
mod idle;
mod inner;
mod kept;
mod noted;
mod restart_host;

pub use idle::IdleChildren;
pub use restart_host::RestartHost;
