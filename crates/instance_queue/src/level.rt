//! The instances that are due, with their turns.
ghost use Rattle.std.specs.Prelude.{◌≡◌, IfOk, IfErr};
ghost use Rattle.task_model.specs.Fit.{IsFit};
ghost use Rattle.instance_queue.specs.Asks as asks;
ghost use Rattle.instance_queue.specs.Level.{AreDueInTurn, HasLevelCause};

use crate::due::{Due, QueueFault};
use crate::queue::Queue;
use fact_store::Facts;
use instance_search::{Names, Sought, found_instances};
use std::alloc::{AllocError, Global};
use task_model::{Instance, MOST_DUE, Stream, Task};

impl Sought for Queue {
    ghost use Rattle.std.specs.Prelude.{not};
    ghost use Rattle.task_model.specs.Streams.{is_finished};

    ghost seeks = { λ queue stream instance. not (is_finished stream queue instance) };

    /// Whether the instance hasn't finished.
    fn seeks(&self, stream: &Stream, instance: &Instance) -> bool {
        !self.is_finished(stream, instance)
    }
}

/// The asks of the instances, each with its turn. Fails only where memory is wanting.
fn asks_of(alloc: Global, queue: &Queue, instances: &[Instance]) -> Result<Vec<Due>, AllocError>
    ensures { IfOk result (λ dues. dues.items ≡ asks.dues_of_instances queue.now instances.now) }
{
    let mut dues = Vec::with_capacity(alloc, instances.len())?;
    for instance in instances {
        let turn = queue.yields(instance);
        dues.push(Due {
            instance: instance.copy()?,
            turn,
        })?;
    }
    Ok(dues)
}

/// The asks that are due, in their order.
pub(crate) fn level(
    alloc: Global,
    queue: &Queue,
    task: &Task,
    facts: &Facts,
) -> Result<Vec<Due>, QueueFault>
    requires { IsFit task.now }
    ensures due { IfOk result (λ dues. AreDueInTurn task.now facts.now.known queue.now dues.items) }
    ensures fault { IfErr result (HasLevelCause task.now facts.now.known queue.now) }
{
    let names = Names::new(facts.names(), &[]);
    let instances = found_instances(alloc, task, facts, &names, queue, MOST_DUE)?;
    Ok(asks_of(alloc, queue, instances.as_slice())?)
}
