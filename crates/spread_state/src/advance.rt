//! What one step does to a state that is spread.
ghost use Rattle.std.specs.Prelude.{◌≡◌, ◌≤◌, IfOk, IfErr, OnOk, length, option_copied, slice_get, true};
ghost use Rattle.plan_check.specs.Faults.{StepFails};
ghost use Rattle.plan_check.specs.declared.fault.StepFault.TheVariants.{Memory};
ghost use Rattle.task_model.specs.Fit.{IsFit, is_fit_action};
ghost use Rattle.task_model.specs.State.{with_atoms, without_atoms};
ghost use Rattle.task_model.specs.Steps.{IsStep, effect_of};
ghost use Rattle.task_model.specs.declared.limits.TheConstants.{SLOTS};

use crate::cells::SpreadState;
use crate::truth::{Scene, truth};
use formula_eval::{Env, have_types};
use plan_check::{Changes, StepFault, changes_of, step_cost};
use std::alloc::AllocError;
use task_model::{Action, Atom, GroundAction, Look, State, Task};

/// The action that the step names, if there is one.
fn action_of<'a>(task: &'a Task, step: &GroundAction) -> Option<&'a Action>
    ensures { option_copied result ≡ slice_get task.now.domain.actions step.now.action }
{
    task.domain.actions.as_slice().get(step.action as usize)
}

/// Takes the atoms out of the state.
fn take_out(state: &mut SpreadState, gone: &[Atom])
    ensures { state.new ≡ without_atoms state.old gone.now }
{
    for atom in gone {
        state.remove(atom);
    }
}

/// Puts the atoms into the state.
fn put_in(state: &mut SpreadState, come: &[Atom]) -> Result<(), AllocError>
    ensures { OnOk result (state.new ≡ with_atoms state.old come.now) }
{
    for atom in come {
        state.add(atom.copy()?)?;
    }
    Ok(())
}

/// Does to the state what the changes say. Fails only where memory is wanting.
fn change(state: &mut SpreadState, changes: &Changes) -> Result<(), AllocError>
    ensures { OnOk result (state.new
        ≡ with_atoms (without_atoms state.old changes.now.gone.items) changes.now.come.items) }
{
    take_out(state, changes.gone.as_slice());
    put_in(state, changes.come.as_slice())
}

/// The action that the step names and what it costs, if it is applicable. Of several faults the
/// first is told: no such action, arguments, condition, cost.
fn judged<'a, L: Look>(
    task: &'a Task,
    look: &L,
    state: &SpreadState,
    step: &GroundAction,
) -> Result<(&'a Action, u64), StepFault>
    requires { IsFit task.now }
    ensures ok { IfOk result (λ found. IsStep task.now (L.known look.now) state.now step.now
        (effect_of found.0.now step.now.args state.now) found.1) }
    ensures fit { IfOk result (λ found. is_fit_action task.now.domain found.0.now ≡ true) }
    ensures few { IfOk result (λ _. length step.now.args ≤ SLOTS) }
    ensures err { IfErr result (StepFails task.now (L.known look.now) state.now step.now) }
    ensures small { IfOk result (λ found. found.1 ≤ 262144000000) }
{
    let Some(action) = action_of(task, step) else {
        return Err(StepFault::NoAction);
    };
    let alloc = state.allocator();
    let args = step.args.as_slice();
    if !have_types(alloc, look, args, action.params.as_slice()) {
        return Err(StepFault::Args);
    }
    let scene = Scene { task, look, state };
    match truth(&scene, &action.condition, &mut Env::new(args)) {
        Ok(true) => {}
        Ok(false) => return Err(StepFault::Condition),
        Err(_) => return Err(StepFault::Memory),
    }
    match step_cost(task, look, &State::new(alloc), action, args) {
        Some(cost) => Ok((action, cost)),
        None => Err(StepFault::NoCost),
    }
}

/// What the step does in the state and what it costs, as `advance` of `plan_check` says.
pub(crate) fn advance_spread<L: Look>(
    task: &Task,
    look: &L,
    state: &mut SpreadState,
    step: &GroundAction,
) -> Result<u64, StepFault>
    requires { IsFit task.now }
    ensures ok { IfOk result (λ cost. IsStep task.now (L.known look.now) state.old step.now
        state.new cost) }
    ensures err { IfErr result (StepFails task.now (L.known look.now) state.old step.now) }
    ensures same { IfErr result (λ fault. ¬ (fault ≡ Memory) → state.new ≡ state.old) }
    ensures small { IfOk result (λ cost. cost ≤ 262144000000) }
{
    let (action, cost) = judged(task, look, state, step)?;
    let Ok(changes) = changes_of(state.allocator(), action, step.args.as_slice()) else {
        return Err(StepFault::Memory);
    };
    match change(state, &changes) {
        Ok(()) => Ok(cost),
        Err(_) => Err(StepFault::Memory),
    }
}
