//! Why a step or a plan is refused.
use std::alloc::AllocError;
use thiserror::Error;

/// Why a step isn't applicable, in the order of testing.
#[derive(Debug, Drop, PartialEq, Eq, Error)]
pub enum StepFault {
    /// The step names no action of the domain.
    #[error("no such action")]
    NoAction,
    /// It has another number of arguments than parameters, or one lacks its parameter's type.
    #[error("the arguments don't fit")]
    Args,
    /// The action's condition is false.
    #[error("the condition is false")]
    Condition,
    /// The action's cost has no value.
    #[error("the cost has no value")]
    NoCost,
    /// Memory is wanting.
    #[error("out of memory")]
    Memory,
}

/// Why a plan isn't valid. A number is the place, from 0, of the first step that isn't applicable.
#[derive(Debug, Drop, PartialEq, Eq, Error)]
pub enum CheckFault {
    /// The step names no action of the domain.
    #[error("step {0}: no such action")]
    NoAction(usize),
    /// The step has another number of arguments than parameters, or one lacks its parameter's type.
    #[error("step {0}: the arguments don't fit")]
    Args(usize),
    /// The step's condition is false.
    #[error("step {0}: the condition is false")]
    Condition(usize),
    /// The step's cost has no value.
    #[error("step {0}: the cost has no value")]
    NoCost(usize),
    /// All steps are applicable, and the goal is false at the end.
    #[error("the goal is false")]
    Goal,
    /// Memory is wanting.
    #[error("out of memory")]
    Memory,
}
