//! The first batch of a dream.
ghost use Rattle.std.specs.Prelude.{◌≡◌, nat_lt, IfOk};
ghost use Rattle.std.specs.List.{list_all};
ghost use Rattle.dream_asks.specs.First.{AreFirstAsks};
ghost use Rattle.task_model.specs.Fit.{IsFit};

use fact_store::Facts;
use instance_queue::{Due, Queue};
use optimistic_set::OptEntry;
use std::alloc::{AllocError, Global};
use task_model::{Instance, Task};

/// Whether all inputs are among the first `real` objects.
fn is_real(instance: &Instance, real: u32) -> bool
    ensures { result ≡ list_all (λ o. nat_lt o real) instance.now.inputs }
{
    instance
        .inputs
        .as_slice()
        .iter()
        .all(|object| object.place() < real)
}

/// What is asked first of a dream with these entries, where `real` objects have names without it:
/// in their order the instances that are due and whose inputs are all among the first `real`
/// objects, so that no input is a placeholder. Each ask has as its turn the number of tuples that
/// its instance has given. The batches of a dream are this project's, after PDDLStream (2020).
///
/// # Errors
/// Only where memory is wanting.
pub fn first_asks(
    alloc: Global,
    task: &Task,
    facts: &Facts,
    queue: &Queue,
    entries: &[OptEntry],
    real: u32,
) -> Result<Vec<Due>, AllocError>
    requires { IsFit task.now }
    ensures { IfOk result (λ dues. AreFirstAsks task.now facts.now.known queue.now real entries.now
        dues.items) }
{
    let mut asks = Vec::new(alloc);
    for entry in entries {
        let instance = entry.instance();
        if is_real(instance, real) && queue.is_due(task, facts, instance) {
            let turn = queue.yields(instance);
            let instance = instance.copy()?;
            asks.push(Due { instance, turn })?;
        }
    }
    Ok(asks)
}
