//! Laws of what reading gives, said without the functions by which it is computed.
#![tactic(auto)]

pub mod laws;
