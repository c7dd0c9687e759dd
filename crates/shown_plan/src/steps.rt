//! Steps by name.
ghost use Rattle.std.specs.Prelude.{◌≡◌, map, IfOk};
ghost use Rattle.shown_plan.specs.Shown.{AreNamedSteps};
ghost use Rattle.transcript_model.specs.Calls.{call_of_step};

use std::alloc::{AllocError, Global};
use task_model::{GroundAction, Look, Seq, Task};
use transcript_model::{Call, name_step};

/// The steps, with the names of their actions and objects. Fails only where memory is wanting.
pub fn name_steps<L: Look>(
    alloc: Global,
    task: &Task,
    look: &L,
    steps: &[GroundAction],
) -> Result<Seq<Call>, AllocError>
    requires { AreNamedSteps task.now (L.known look.now).names steps.now }
    ensures { IfOk result (λ calls. calls
        ≡ map (call_of_step task.now (L.known look.now).names) steps.now) }
{
    let mut calls = Vec::new(alloc);
    for step in steps {
        let call = name_step(alloc, task, look, step)?;
        calls.push(call)?;
    }
    Ok(Seq::from_vec(calls))
}
