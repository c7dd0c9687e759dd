//! Steps and instances by name.
ghost use Rattle.std.specs.Prelude.{◌≡◌, ◌<◌, map, length, All, IfOk};
ghost use Rattle.gen_lines.specs.Request.{IsNamed};
ghost use Rattle.task_model.specs.Known.{IsIn};
ghost use Rattle.task_model.specs.Streams.{name_at};
ghost use Rattle.transcript_model.specs.Calls.{call_of_step};
ghost use Rattle.transcript_model.specs.Names.{call_of_instance};

use crate::entry::Call;
use std::alloc::{AllocError, Global};
use task_model::{GroundAction, Instance, Look, Name, Obj, Seq, Task};

/// The names of the objects.
fn name_objects<L: Look>(alloc: Global, look: &L, objects: &[Obj]) -> Result<Seq<Name>, AllocError>
    requires { All (IsIn (L.known look.now).names) objects.now }
    ensures { IfOk result (λ names. names ≡ map (name_at (L.known look.now).names) objects.now) }
{
    let mut names = Vec::with_capacity(alloc, objects.len())?;
    for object in objects {
        let name = look.name(*object).copy(alloc)?;
        names.push(name)?;
    }
    Ok(Seq::from_vec(names))
}

/// The step, with the names of its action and its objects. Fails only where memory is wanting.
pub fn name_step<L: Look>(
    alloc: Global,
    task: &Task,
    look: &L,
    step: &GroundAction,
) -> Result<Call, AllocError>
    requires action { step.now.action < length task.now.domain.actions }
    requires objects { All (IsIn (L.known look.now).names) step.now.args }
    ensures { IfOk result (λ call. call ≡ call_of_step task.now (L.known look.now).names step.now) }
{
    let action = &task.domain.actions.as_slice()[step.action as usize];
    let name = action.name.copy(alloc)?;
    let args = name_objects(alloc, look, step.args.as_slice())?;
    Ok(Call { name, args })
}

/// The instance, with the names of its stream and its inputs. Fails only where memory is wanting.
pub fn name_instance<L: Look>(
    alloc: Global,
    task: &Task,
    look: &L,
    instance: &Instance,
) -> Result<Call, AllocError>
    requires { IsNamed task.now (L.known look.now).names instance.now }
    ensures { IfOk result (λ call. call
        ≡ call_of_instance task.now (L.known look.now).names instance.now) }
{
    let stream = &task.streams.as_slice()[instance.stream as usize];
    let name = stream.name.copy(alloc)?;
    let args = name_objects(alloc, look, instance.inputs.as_slice())?;
    Ok(Call { name, args })
}
