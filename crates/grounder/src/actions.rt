//! The applicable actions.
ghost use Rattle.std.specs.Prelude.{IfOk};
ghost use Rattle.task_model.specs.Fit.{IsFit};
ghost use Rattle.grounder.specs.Applicable.{AreApplicable};

use crate::steps::{Scene, add_steps};
use std::alloc::{AllocError, Global};
use task_model::{GroundAction, Look, State, Task};

/// The actions that are applicable in the state with their arguments (PDDL 2.1, with costs as in
/// IPC 2008): each once, in the order of the actions and then of the objects' numbers, one after
/// another. Fails only where memory is wanting.
pub fn applicable<L: Look>(
    alloc: Global,
    task: &Task,
    look: &L,
    state: &State,
) -> Result<Vec<GroundAction>, AllocError>
    requires { IsFit task.now }
    ensures { IfOk result (λ steps. AreApplicable task.now (L.known look.now) state.now
        steps.items) }
{
    let mut steps = Vec::new(alloc);
    for (number, action) in task.domain.actions.as_slice().iter().enumerate() {
        let scene = Scene {
            task,
            look,
            state,
            number: number as u32,
            action,
        };
        add_steps(alloc, &scene, &mut steps)?;
    }
    Ok(steps)
}
