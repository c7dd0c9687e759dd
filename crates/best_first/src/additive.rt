//! The additive estimate.
ghost use Rattle.std.specs.Prelude.{IfOk};
ghost use Rattle.task_model.specs.Fit.{IsFit};
ghost use Rattle.relaxed_task.specs.Room.{HasRoom};

use crate::estimate::Estimate;
use relaxed_task::RelaxedTask;
use std::alloc::{AllocError, Global};
use task_model::{Look, State, Task};

/// How much more a step that is left counts than one that was taken, so that the search goes for the
/// goal and not for the cheapest plan.
const WEIGHT: u64 = 5;

/// The additive estimate (Bonet and Geffner 2001) of the steps that are left, each of which counts
/// five times what a step costs on the average. Deletes are ignored but for what conditions need
/// false. A fact of the state takes no step, and any other fact the least that a step takes which
/// gives it, together with all facts that its condition needs. Derived atoms, `or` and `exists` take
/// what the part takes that takes least.
#[derive(Drop)]
pub struct Additive {
    relaxed: RelaxedTask,
}

impl Additive {
    /// The estimate for a task and what is known of it. It takes all its room here: 4,000,000 facts,
    /// rules, conditions and effects together. Where a task has more, of its conditions the fluent
    /// atoms at the top count alone, and where there are more of these too, each estimate is 0. Fails
    /// only where memory is wanting.
    pub fn new<L: Look>(alloc: Global, task: &Task, look: &L) -> Result<Additive, AllocError>
        requires { IsFit task.now }
        ensures { IfOk result (λ estimate. HasRoom estimate.relaxed) }
    {
        let relaxed = RelaxedTask::new(alloc, task, look)?;
        Ok(Additive { relaxed })
    }
}

impl Estimate for Additive {
    ghost tells = { λ _ _ _ _. Unit {0} };

    fn estimate<L: Look>(&mut self, _task: &Task, _look: &L, state: &State) -> u64
        requires { IsFit _task.now }
    {
        let each = self.relaxed.step_cost().saturating_mul(WEIGHT);
        self.relaxed.steps_left(state).saturating_mul(each)
    }
}
