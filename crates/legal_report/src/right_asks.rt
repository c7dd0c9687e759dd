//! Whether a request may be made.
ghost use Rattle.std.specs.Prelude.{◌≡◌, ℕ, List, IfOk};
ghost use Rattle.learning.specs.Knowledge.{IsKnowledge};
ghost use Rattle.legal_report.specs.Talks.{IsAskedBy};
ghost use Rattle.legal_report.specs.Talks.{may_ask as passes};
ghost use Rattle.task_model.specs.Fit.{IsFit};
ghost use Rattle.transcript_model.specs.declared.entry.Entry.{Entry as AnyEntry};

use crate::request::Request;
use learning::Knowledge;
use shown_steps::instance_of;
use std::alloc::{AllocError, Global};
use task_model::{Instance, Task};

/// Whether the request may be made of this instance: it has the next number, the instance is due,
/// none of its requests is open, and the turn is how many tuples it has given.
fn may_ask(task: &Task, knowledge: &Knowledge, number: u32, turn: u32, instance: &Instance) -> bool
    requires { IsFit task.now }
    ensures { result ≡ passes task.now knowledge.now number turn instance.now }
{
    number as usize == knowledge.asked.len() + 1
        && turn == knowledge.queue.yields(instance)
        && knowledge.queue.is_due(task, &knowledge.facts, instance)
        && !knowledge.is_waiting(instance)
}

/// The instance that the request asks, if it may be made after the entries so far, and its number
/// is at most `calls`.
pub fn asked_by(
    alloc: Global,
    task: &Task,
    knowledge: &Knowledge,
    calls: u32,
    request: &Request<'_>,
) -> Result<Option<Instance>, AllocError>
    requires { IsFit task.now }
    ensures { (version : ℕ) (before : List AnyEntry) → IsKnowledge version task.now before knowledge.now
        → IfOk result (IsAskedBy calls task.now before request.now.number
        request.now.turn request.now.call.now) }
{
    if request.number > calls {
        return Ok(None);
    }
    let Some(instance) = instance_of(alloc, task, &knowledge.facts, request.call)? else {
        return Ok(None);
    };
    if may_ask(task, knowledge, request.number, request.turn, &instance) {
        Ok(Some(instance))
    } else {
        Ok(None)
    }
}
