//! Definitions and lemmas of no crate's own subject: lists in which places count, numbers, digits,
//! and how far lists can go.
//!
//! There is no code here. Definitions stand in `specs/`, lemmas in `proofs/`, a module a subject.
#![tactic(auto)]
