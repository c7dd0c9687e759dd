//! What the names of a call stand for: the step of an action, or the instance of a stream.
ghost use Rattle.std.specs.Prelude.{◌≡◌, IfOk};
ghost use Rattle.lemmas.specs.Lists.{AreDistinct};
ghost use Rattle.shown_steps.specs.Steps.{action_named as action_at, step_named};
ghost use Rattle.task_model.specs.Fit.{IsFit};
ghost use Rattle.transcript_model.specs.Names.{instance_of as instance_at, places_of, stream_named as stream_at};

use crate::names::Named;
use std::alloc::{AllocError, Global};
use task_model::{GroundAction, Instance, Name, Objects, Task};
use transcript_model::Call;

/// The place of the task's action with this name.
fn action_named(task: &Task, name: &[u8]) -> Option<u32>
    requires { IsFit task.now }
    ensures { result ≡ action_at task.now name.now }
{
    let actions = task.domain.actions.as_slice();
    match actions.iter().position(|a| name == a.name.bytes()) {
        Some(place) => Some(place as u32),
        None => None,
    }
}

/// The objects with these names in a table of distinct names, or None where one is unknown. Fails
/// only where memory is wanting.
pub fn objects_of<T: Named, const N: usize>(
    alloc: Global,
    table: &T,
    names: &[Name],
) -> Result<Option<Objects<N>>, AllocError>
    requires { AreDistinct (T.names table.now) }
    ensures { IfOk result (λ row. row ≡ places_of (T.names table.now) names.now) }
{
    let mut row = Objects::empty(alloc);
    for name in names {
        let Some(object) = table.object_named(name.bytes()) else {
            return Ok(None);
        };
        row.push(object)?;
    }
    Ok(Some(row))
}

/// The step that a call stands for, or None where its action or one of its objects is unknown.
/// Fails only where memory is wanting.
pub fn step_of<T: Named>(
    alloc: Global,
    task: &Task,
    table: &T,
    call: &Call,
) -> Result<Option<GroundAction>, AllocError>
    requires fit { IsFit task.now }
    requires distinct { AreDistinct (T.names table.now) }
    ensures { IfOk result (λ s. s ≡ step_named task.now (T.names table.now) call.now) }
{
    let Some(action) = action_named(task, call.name.bytes()) else {
        return Ok(None);
    };
    let Some(args) = objects_of(alloc, table, call.args.as_slice())? else {
        return Ok(None);
    };
    Ok(Some(GroundAction { action, args }))
}

/// The place of the task's stream with this name.
pub fn stream_named(task: &Task, name: &[u8]) -> Option<u32>
    requires { IsFit task.now }
    ensures { result ≡ stream_at task.now name.now }
{
    let streams = task.streams.as_slice();
    match streams.iter().position(|s| name == s.name.bytes()) {
        Some(place) => Some(place as u32),
        None => None,
    }
}

/// The instance that a call stands for, if its stream and its objects are known. Fails only where
/// memory is wanting.
pub fn instance_of<T: Named>(
    alloc: Global,
    task: &Task,
    table: &T,
    call: &Call,
) -> Result<Option<Instance>, AllocError>
    requires fit { IsFit task.now }
    requires distinct { AreDistinct (T.names table.now) }
    ensures { IfOk result (λ i. i ≡ instance_at task.now (T.names table.now) call.now) }
{
    let Some(stream) = stream_named(task, call.name.bytes()) else {
        return Ok(None);
    };
    let Some(inputs) = objects_of(alloc, table, call.args.as_slice())? else {
        return Ok(None);
    };
    Ok(Some(Instance { stream, inputs }))
}
