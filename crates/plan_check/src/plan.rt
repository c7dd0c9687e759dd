//! Whether a plan is valid.
ghost use Rattle.std.specs.Prelude.{◌≡◌, ◌<◌, ◌^◌, ◌↔◌, IsTrue, IfOk, IfErr, length};
ghost use Rattle.task_model.specs.Fit.{IsFit};
ghost use Rattle.task_model.specs.Plans.{IsValid, IsGoal, Executes};
ghost use Rattle.task_model.specs.Initial.{initial_state};
ghost use Rattle.plan_check.specs.Faults.{PlanFails, StepsRun, fault_at as fault_of};

use crate::fault::{CheckFault, StepFault};
use crate::start::initial;
use crate::step::{Applied, advance};
use formula_eval::Env;
use formula_memo::holds_once;
use std::alloc::Global;
use task_model::{GroundAction, Look, Plan, State, Task};

/// The fault of the step at this place.
fn fault_at(place: usize, fault: StepFault) -> CheckFault
    ensures { result ≡ fault_of place fault }
{
    match fault {
        StepFault::NoAction => CheckFault::NoAction(place),
        StepFault::Args => CheckFault::Args(place),
        StepFault::Condition => CheckFault::Condition(place),
        StepFault::NoCost => CheckFault::NoCost(place),
        StepFault::Memory => CheckFault::Memory,
    }
}

/// The state after the steps, and what they cost together.
fn run<L: Look>(
    alloc: Global,
    task: &Task,
    look: &L,
    steps: &[GroundAction],
) -> Result<Applied, CheckFault>
    requires fit { IsFit task.now }
    requires few { length steps.now < 2 ^ 26 }
    ensures ok { IfOk result (λ end. Executes task.now (L.known look.now) (initial_state task.now)
        steps.now end.state end.cost) }
    ensures err { IfErr result (StepsRun task.now (L.known look.now) steps.now) }
{
    let Ok(mut state) = initial(alloc, task) else {
        return Err(CheckFault::Memory);
    };
    let mut cost: u64 = 0;
    for (place, step) in steps.iter().enumerate() {
        match advance(task, look, &mut state, step) {
            Ok(more) => cost += more,
            Err(fault) => return Err(fault_at(place, fault)),
        }
    }
    Ok(Applied { state, cost })
}

/// Whether the goal is true in the state (PDDL 2.1).
pub fn meets_goal<L: Look>(task: &Task, look: &L, state: &State) -> bool
    requires { IsFit task.now }
    ensures { IsTrue result ↔ IsGoal task.now (L.known look.now) state.now }
{
    let mut env = Env::new(&[]);
    holds_once(task, look, state, &task.problem.goal, &mut env)
}

/// What a valid plan costs (PDDL 2.1; costs as in IPC 2008): each step is applicable in turn from
/// the initial state, and the goal is true at the end. A plan has fewer than 2^26 steps, so that
/// the sum fits.
///
/// The fault that is told is that of the first step that isn't applicable, or `Goal` where all are
/// and only the goal is false. Fails besides where memory is wanting.
pub fn check<L: Look>(alloc: Global, task: &Task, look: &L, plan: &Plan) -> Result<u64, CheckFault>
    requires fit { IsFit task.now }
    requires few { length plan.now.steps < 2 ^ 26 }
    ensures ok { IfOk result (IsValid task.now (L.known look.now) plan.now.steps) }
    ensures err { IfErr result (PlanFails task.now (L.known look.now) plan.now.steps) }
{
    let end = match run(alloc, task, look, plan.steps.as_slice()) {
        Ok(end) => end,
        Err(fault) => return Err(fault),
    };
    if meets_goal(task, look, &end.state) {
        Ok(end.cost)
    } else {
        Err(CheckFault::Goal)
    }
}
