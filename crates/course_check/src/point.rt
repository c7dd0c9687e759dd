//! Points of a transcript where batches of dreams begin.
ghost use Rattle.std.specs.Prelude.{◌≤◌};
ghost use Rattle.task_model.specs.Fit.{IsFit};
ghost use Rattle.transcript_model.specs.declared.limits.TheConstants.{MOST_CALLS};

use fact_store::Facts;
use instance_queue::Queue;
use pools::Workers;
use task_model::Task;

/// A point of a transcript where a batch of a dream may begin, over a fit task. At most 100,000
/// requests may be made in all.
#[derive(Drop)]
pub struct BatchPoint<'a> {
    /// The task.
    pub task: &'a Task,
    /// What is known of it.
    pub facts: &'a Facts,
    /// What is due, and was asked.
    pub queue: &'a Queue,
    /// The pools of the generators.
    pub pools: &'a [Workers],
    /// How many requests may be made in all.
    pub calls: u32,
    ghost fit: { IsFit task.now },
    ghost few: { calls ≤ MOST_CALLS },
}
