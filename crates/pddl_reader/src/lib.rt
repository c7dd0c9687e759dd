//! The readers of domains and of problems under one name.
#![tactic(auto)]

pub use domain_reader::read_domain;
pub use problem_reader::read_problem;
