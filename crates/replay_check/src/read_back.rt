//! A plan that a report shows, as steps.
ghost use Rattle.std.specs.Prelude.{ℕ, IfOk};
ghost use Rattle.shown_steps.specs.Plans.{IsPlan, ShowsSteps};
ghost use Rattle.task_model.specs.Fit.{IsFit};
ghost use Rattle.task_model.specs.Plans.{IsValid};

use fact_store::Facts;
use shown_steps::step_of;
use std::alloc::{AllocError, Global};
use task_model::{Plan, Seq, Task};
use transcript_model::Call;

/// The steps that the calls show, where they are a valid plan over what is known. Fails only where
/// memory is wanting.
pub fn plan_of(
    alloc: Global,
    task: &Task,
    facts: &Facts,
    calls: &[Call],
) -> Result<Plan, AllocError>
    requires fit { IsFit task.now }
    requires plan { (cost : ℕ) × IsPlan task.now facts.now.known calls.now cost }
    ensures shown { IfOk result (λ plan. ShowsSteps task.now facts.now.known calls.now plan.steps) }
    ensures valid { IfOk result (λ plan. (cost : ℕ) → IsPlan task.now facts.now.known calls.now cost
        → IsValid task.now facts.now.known plan.steps cost) }
{
    let mut steps = Vec::with_capacity(alloc, calls.len())?;
    for call in calls {
        let Some(step) = step_of(alloc, task, facts, call)? else {
            unreachable!()
        };
        steps.push(step)?;
    }
    let steps = Seq::from_vec(steps);
    Ok(Plan { steps })
}
