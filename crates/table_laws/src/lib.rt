//! Laws of the tables that the readers of domains and streams fill, said by what stands in the text.
#![tactic(auto)]

pub mod laws;
