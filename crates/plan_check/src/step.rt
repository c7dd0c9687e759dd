//! What one step does and costs.
ghost use Rattle.std.specs.Prelude.{◌≡◌, ◌≤◌, IfOk, IfErr, IfSome, length, option_copied, slice_get, true};
ghost use Rattle.task_model.specs.Fit.{IsFit, is_fit_action};
ghost use Rattle.task_model.specs.Steps.{IsStep, cost_of as cost_of_action, effect_of};
ghost use Rattle.plan_check.specs.Faults.{StepFails};
ghost use Rattle.plan_check.specs.declared.fault.StepFault.TheVariants.{Memory};
ghost use Rattle.task_model.specs.declared.limits.TheConstants.{SLOTS};

use crate::cost::terms_cost;
use crate::effect::{after, change};
use crate::fault::StepFault;
use formula_eval::{Env, have_types};
use formula_memo::holds_once;
use task_model::{Action, GroundAction, Look, Obj, State, Task};

/// A state after a step, and what the step costs.
#[derive(Drop)]
pub struct Applied {
    /// The state after the step.
    pub state: State,
    /// What the step costs.
    pub cost: u64,
}

/// The action that the step names, if there is one.
fn action_of<'a>(task: &'a Task, step: &GroundAction) -> Option<&'a Action>
    ensures { option_copied result ≡ slice_get task.now.domain.actions step.now.action }
{
    task.domain.actions.as_slice().get(step.action as usize)
}

/// What the action costs with these arguments, or None where a term has no value. It takes no
/// memory.
pub fn cost<L: Look>(
    task: &Task,
    look: &L,
    state: &State,
    action: &Action,
    args: &[Obj],
) -> Option<u64>
    requires fit { IsFit task.now }
    requires action { is_fit_action task.now.domain action.now ≡ true }
    requires few { length args.now ≤ SLOTS }
    ensures value { result ≡ cost_of_action task.now (L.known look.now) action.now args.now }
    ensures small { IfSome result (λ n. n ≤ 262144000000) }
{
    if !task.problem.metric {
        return Some(1);
    }
    terms_cost(
        state.allocator(),
        look,
        action.costs.as_slice(),
        &Env::new(args),
    )
}

/// The action that the step names and what it costs, if it is applicable. Of several faults the
/// first is told: no such action, arguments, condition, cost.
fn judged<'a, L: Look>(
    task: &'a Task,
    look: &L,
    state: &State,
    step: &GroundAction,
) -> Result<(&'a Action, u64), StepFault>
    requires { IsFit task.now }
    ensures ok { IfOk result (λ found. IsStep task.now (L.known look.now) state.now step.now
        (effect_of found.0.now step.now.args state.now) found.1) }
    ensures fit { IfOk result (λ found. is_fit_action task.now.domain found.0.now ≡ true) }
    ensures few { IfOk result (λ _. length step.now.args ≤ SLOTS) }
    ensures err { IfErr result (StepFails task.now (L.known look.now) state.now step.now) }
    ensures small { IfOk result (λ found. found.1 ≤ 262144000000) }
{
    let Some(action) = action_of(task, step) else {
        return Err(StepFault::NoAction);
    };
    let args = step.args.as_slice();
    if !have_types(state.allocator(), look, args, action.params.as_slice()) {
        return Err(StepFault::Args);
    }
    if !holds_once(task, look, state, &action.condition, &mut Env::new(args)) {
        return Err(StepFault::Condition);
    }
    match cost(task, look, state, action, args) {
        Some(cost) => Ok((action, cost)),
        None => Err(StepFault::NoCost),
    }
}

/// What the step does in the state and what it costs (PDDL 2.1; costs as in IPC 2008).
///
/// Of several faults the first is told: no such action, arguments, condition, cost. Fails besides
/// where memory is wanting.
pub fn apply<L: Look>(
    task: &Task,
    look: &L,
    state: &State,
    step: &GroundAction,
) -> Result<Applied, StepFault>
    requires { IsFit task.now }
    ensures ok { IfOk result (λ applied. IsStep task.now (L.known look.now) state.now step.now
        applied.state applied.cost) }
    ensures err { IfErr result (StepFails task.now (L.known look.now) state.now step.now) }
    ensures small { IfOk result (λ applied. applied.cost ≤ 262144000000) }
{
    let (action, cost) = judged(task, look, state, step)?;
    match after(state, action, step.args.as_slice()) {
        Ok(state) => Ok(Applied { state, cost }),
        Err(_) => Err(StepFault::Memory),
    }
}

/// Takes the step in the state itself, which becomes the one after it, and answers what the step
/// costs (PDDL 2.1; costs as in IPC 2008). No state is copied.
///
/// Fails as `apply` does, and leaves the state as it was; but where memory is wanting, the state is
/// of no further use.
pub fn advance<L: Look>(
    task: &Task,
    look: &L,
    state: &mut State,
    step: &GroundAction,
) -> Result<u64, StepFault>
    requires { IsFit task.now }
    ensures ok { IfOk result (λ cost. IsStep task.now (L.known look.now) state.old step.now
        state.new cost) }
    ensures err { IfErr result (StepFails task.now (L.known look.now) state.old step.now) }
    ensures same { IfErr result (λ fault. ¬ (fault ≡ Memory) → state.new ≡ state.old) }
    ensures small { IfOk result (λ cost. cost ≤ 262144000000) }
{
    let (action, cost) = judged(task, look, state, step)?;
    match change(state, action, step.args.as_slice()) {
        Ok(()) => Ok(cost),
        Err(_) => Err(StepFault::Memory),
    }
}
