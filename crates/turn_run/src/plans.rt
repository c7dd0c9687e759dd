//! Plans that are valid by what is known.
ghost use Rattle.std.specs.Prelude.{◌≡◌, ◌≤◌, length, true, IfOk};
ghost use Rattle.turn_run.specs.Deciding.{MayDecideIn, MayEndIn, known_in};
ghost use Rattle.task_model.specs.Plans.{IsLeastCost, IsValid};

use crate::situation::Situation;
use shown_plan::plan_outcome;
use std::alloc::AllocError;
use task_model::Plan;
use transcript_model::Outcome;

/// The outcome of a run that ends with this plan, which is valid by what is known at this cost, has
/// at most as many steps as a search may have states, and costs least where the head asks for that.
/// Fails only where memory is wanting.
pub fn known_plan(situation: &Situation<'_>, plan: &Plan, cost: u64) -> Result<Outcome, AllocError>
    requires may { MayDecideIn situation.now }
    requires valid { IsValid situation.now.task.now (known_in situation.now) plan.now.steps cost }
    requires few { length plan.now.steps ≤ situation.now.head.now.states }
    requires least { situation.now.head.now.optimal ≡ true
        → IsLeastCost situation.now.task.now (known_in situation.now) cost }
    ensures { IfOk result (MayEndIn situation.now) }
{
    let facts = situation.session.facts();
    let steps = plan.steps.as_slice();
    plan_outcome(
        situation.alloc,
        situation.task,
        facts,
        situation.head.version,
        situation.session.entries(),
        steps,
        cost,
    )
}
