//! What may be supposed of streams that haven't answered, and the plans that rest on it.
#![tactic(auto)]

mod draft;
mod entry;
mod fault;
mod list;
mod placeholders;
mod supposed;
mod tried;

pub use draft::add_certified;
pub use entry::OptEntry;
pub use fault::OptimisticFault;
pub use list::optimistic;
pub use placeholders::are_real;
pub use supposed::Supposed;
pub use tried::Tried;
