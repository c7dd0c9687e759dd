//! What a search comes to.
use task_model::Plan;

/// What a search comes to.
#[derive(Drop)]
pub enum Found {
    /// A valid plan and its cost.
    Plan(Plan, u64),
    /// There is no valid plan.
    Nothing,
    /// More states are reached than the limit allows, and so many also within the steps of any
    /// plan.
    Limit,
}
