//! Plans that rest on what is supposed, with the entries that they need.
#![tactic(auto)]

mod answer;
pub mod laws;
mod part;
mod shown;
mod taken;
mod thin;
mod trial;
mod wanted;

pub use answer::{Dreamt, dream};
pub use part::Part;
pub use shown::entries_of;
pub use taken::{Listing, fill};
