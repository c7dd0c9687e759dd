//! What is due.
ghost use Rattle.std.specs.Prelude.{IfOk, IfSome, IfNone};
ghost use Rattle.instance_queue.specs.Level.{AreDueInTurn};
ghost use Rattle.task_model.specs.Fit.{IsFit};
ghost use Rattle.task_model.specs.Streams.{MoreAreDue};
ghost use Rattle.task_model.specs.declared.limits.TheConstants.{MOST_DUE};

use crate::knowledge::Knowledge;
use instance_queue::{Due, QueueFault};
use std::alloc::AllocError;
use task_model::Task;

/// What is due, or None where that is more than 1,000,000 instances.
pub fn dues_of(task: &Task, knowledge: &Knowledge) -> Result<Option<Vec<Due>>, AllocError>
    requires { IsFit task.now }
    ensures some { IfOk result (λ found. IfSome found
        (λ dues. AreDueInTurn task.now knowledge.now.facts.known knowledge.now.queue dues.items)) }
    ensures none { IfOk result (λ found. IfNone found
        (MoreAreDue MOST_DUE task.now knowledge.now.facts.known knowledge.now.queue)) }
{
    match knowledge.queue.next_level(task, &knowledge.facts) {
        Ok(dues) => Ok(Some(dues)),
        Err(QueueFault::TooManyInstances) => Ok(None),
        Err(QueueFault::Memory) => Err(AllocError),
    }
}
