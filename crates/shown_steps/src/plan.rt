//! Whether shown steps are a valid plan.
ghost use Rattle.std.specs.Prelude.{◌≡◌, ℕ, IfOk, IsTrue, ◌↔◌};
ghost use Rattle.shown_steps.specs.Plans.{IsPlan};
ghost use Rattle.task_model.specs.Fit.{IsFit};

use crate::names::Named;
use crate::steps::{Ran, run_steps};
use std::alloc::{AllocError, Global};
use task_model::{Look, Task};
use transcript_model::Call;

/// Whether the steps that the calls show are a valid plan over what is known, at whatever cost. The
/// table has the names of its objects. Fails only where memory is wanting.
pub fn is_plan<L: Look, T: Named>(
    alloc: Global,
    task: &Task,
    look: &L,
    table: &T,
    calls: &[Call],
) -> Result<bool, AllocError>
    requires fit { IsFit task.now }
    requires names { T.names table.now ≡ (L.known look.now).names }
    ensures { IfOk result (λ yes. IsTrue yes
        ↔ ((cost : ℕ) × IsPlan task.now (L.known look.now) calls.now cost)) }
{
    match run_steps(alloc, task, look, table, calls)? {
        Ran::Stops(_) => Ok(false),
        Ran::Ends(run) => Ok(run.reaches_goal(task, look)),
    }
}
