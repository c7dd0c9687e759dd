//! A chain of objects, each of which leads to the next.
use std::alloc::{AllocError, Global};

/// The domain of chains: `hop` goes along three edges at once.
pub const CHAIN: &str = "(define (domain c) (:predicates (e ?x ?y) (won ?x) (q ?x ?y))
  (:action hop :parameters (?a ?b ?c ?d)
    :precondition (and (e ?a ?b) (e ?b ?c) (e ?c ?d)) :effect (won ?d)))";

/// The stream of chains: `walk` asks for four objects along three edges.
pub const WALK: &str = "(define (stream c) (:stream walk :inputs (?a ?b ?c ?d)
  :domain (and (e ?a ?b) (e ?b ?c) (e ?c ?d)) :certified (q ?a ?d)))";

/// The problem of the objects o1 to o1000, each of which leads to the next, with this goal.
pub fn chain_problem(alloc: Global, goal: &str) -> Result<String, AllocError> {
    let mut text = String::new(alloc);
    text.push_str("(define (problem one) (:domain c) (:objects")?;
    for n in 1..1001 {
        text.push_str(format!(in alloc; " o{n}")?.as_str())?;
    }
    text.push_str(") (:init")?;
    for n in 1..1000u32 {
        let next = n + 1;
        text.push_str(format!(in alloc; " (e o{n} o{next})")?.as_str())?;
    }
    text.push_str(format!(in alloc; ") (:goal {goal}))")?.as_str())?;
    Ok(text)
}
