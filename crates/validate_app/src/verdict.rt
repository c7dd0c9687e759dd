//! What is said of a plan.
use task_model::Seq;

/// Why a step can't be taken, in the order of testing.
#[derive(Drop)]
pub(crate) enum StepFlaw {
    /// The domain has no action of this name.
    Action,
    /// There are more or fewer arguments than the action has parameters.
    Args,
    /// An argument is the name of no object.
    Object,
    /// An object lacks its parameter's type.
    Sort,
    /// The action's condition is false, and this is the text of the part that makes it so.
    Condition(Seq<u8>),
    /// The action's cost has no value.
    Cost,
}

/// What is said of a plan.
#[derive(Drop)]
pub(crate) enum Verdict {
    /// It is valid, and costs so much.
    Valid(u64),
    /// The step of this number, from 1, is the first that can't be taken.
    Step(usize, StepFlaw),
    /// All steps can be taken, and the goal is false behind them: this is the text of the part that
    /// makes it so.
    Goal(Seq<u8>),
}
