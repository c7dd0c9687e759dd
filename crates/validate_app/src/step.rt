//! One step of a plan, taken by the names of its action and its objects.
ghost use Rattle.std.specs.Prelude.{◌≡◌, ◌↔◌, IfOk, IsTrue, Some, length, option_copied, slice_get};
ghost use Rattle.plan_check.specs.Faults.{StepFails};
ghost use Rattle.plan_check.specs.declared.fault.StepFault.TheVariants.{Condition, Memory};
ghost use Rattle.shown_steps.specs.Steps.{action_named, step_named};
ghost use Rattle.task_model.specs.Fit.{IsFit};
ghost use Rattle.validate_app.specs.Steps.{HasItsArguments, IsStepFlawed, IsSmallStep, IsTakenStep, action_called as called};

use crate::verdict::StepFlaw;
use fact_store::Facts;
use plan_check::StepFault;
use shown_steps::step_of;
use spread_state::Board;
use std::alloc::{AllocError, Global};
use task_model::{Action, GroundAction, Task};
use transcript_model::Call;

/// What a plan is judged over.
#[derive(Clone, Copy)]
pub(crate) struct Scene<'a> {
    pub(crate) alloc: Global,
    pub(crate) task: &'a Task,
    pub(crate) facts: &'a Facts,
}

/// What came of a step.
#[derive(Drop)]
pub(crate) enum Taken {
    /// It was taken, and costs so much.
    Costs(u64),
    /// It can't be.
    Fails(StepFlaw),
}

/// The place of the task's action of this name.
fn action_place(task: &Task, name: &[u8]) -> Option<usize>
    ensures { result ≡ action_named task.now name.now }
{
    let actions = task.domain.actions.as_slice();
    actions.iter().position(|a| name == a.name.bytes())
}

/// The task's action at this place.
fn action_at(task: &Task, place: usize) -> Option<&Action>
    ensures { option_copied result ≡ slice_get task.now.domain.actions place }
{
    task.domain.actions.as_slice().get(place)
}

/// The task's action of this name.
fn action_called<'a>(task: &'a Task, name: &[u8]) -> Option<&'a Action>
    ensures { option_copied result ≡ called task.now name.now }
{
    match action_place(task, name) {
        Some(place) => action_at(task, place),
        None => None,
    }
}

/// Whether the call has as many arguments as the action has parameters.
fn has_count(action: &Action, call: &Call) -> bool
    ensures { IsTrue result ↔ (length call.now.args ≡ length action.now.params) }
{
    call.args.len() == action.params.len()
}

impl Scene<'_> {
    /// Takes the step that the call shows, and leaves the state as it was where it can't be taken.
    pub(crate) fn take<B: Board>(&self, board: &mut B, call: &Call) -> Result<Taken, AllocError>
        requires { IsFit self.now.task.now }
        ensures taken { IfOk result (IsTakenStep self.now.task.now self.now.facts.now.known
            (B.atoms board.old) call.now (B.atoms board.new)) }
        ensures small { IfOk result (λ taken. IsSmallStep taken) }
    {
        let Some(action) = action_called(self.task, call.name.bytes()) else {
            return Ok(Taken::Fails(StepFlaw::Action));
        };
        if has_count(action, call) {
            self.take_counted(board, call)
        } else {
            Ok(Taken::Fails(StepFlaw::Args))
        }
    }

    /// The same of a call of an action of the task, with as many arguments as that has parameters.
    fn take_counted<B: Board>(&self, board: &mut B, call: &Call) -> Result<Taken, AllocError>
        requires fit { IsFit self.now.task.now }
        requires counted { HasItsArguments self.now.task.now call.now }
        ensures taken { IfOk result (IsTakenStep self.now.task.now self.now.facts.now.known
            (B.atoms board.old) call.now (B.atoms board.new)) }
        ensures small { IfOk result (λ taken. IsSmallStep taken) }
    {
        let Some(step) = step_of(self.alloc, self.task, self.facts, call)? else {
            return Ok(Taken::Fails(StepFlaw::Object));
        };
        match board.advance(self.task, self.facts, &step) {
            Ok(cost) => Ok(Taken::Costs(cost)),
            Err(fault) => self.flawed(board, call, &step, fault),
        }
    }

    /// What came of the step that the call shows, which has this fault in the state. The call is one
    /// of an action of the task, with as many arguments as that has parameters.
    fn flawed<B: Board>(
        &self,
        board: &B,
        call: &Call,
        step: &GroundAction,
        fault: StepFault,
    ) -> Result<Taken, AllocError>
        requires fit { IsFit self.now.task.now }
        requires counted { HasItsArguments self.now.task.now call.now }
        requires named { step_named self.now.task.now self.now.facts.now.known.names call.now
            ≡ Some step.now }
        requires fails { StepFails self.now.task.now self.now.facts.now.known (B.atoms board.now)
            step.now fault }
        ensures flawed { IfOk result (λ taken. IsStepFlawed self.now.task.now
            self.now.facts.now.known (B.atoms board.now) call.now taken) }
        ensures real { IfOk result (λ _. ¬ (fault ≡ Memory)) }
    {
        match fault {
            StepFault::NoAction => Ok(Taken::Fails(StepFlaw::Action)),
            StepFault::Args => Ok(Taken::Fails(StepFlaw::Sort)),
            StepFault::Condition => self.false_condition(board, call, step),
            StepFault::NoCost => Ok(Taken::Fails(StepFlaw::Cost)),
            StepFault::Memory => Err(AllocError),
        }
    }

    /// What came of the step that the call shows, whose condition is false in the state.
    fn false_condition<B: Board>(
        &self,
        board: &B,
        call: &Call,
        step: &GroundAction,
    ) -> Result<Taken, AllocError>
        requires fit { IsFit self.now.task.now }
        requires counted { HasItsArguments self.now.task.now call.now }
        requires named { step_named self.now.task.now self.now.facts.now.known.names call.now
            ≡ Some step.now }
        requires fails { StepFails self.now.task.now self.now.facts.now.known (B.atoms board.now)
            step.now Condition }
        ensures { IfOk result (λ taken. IsStepFlawed self.now.task.now self.now.facts.now.known
            (B.atoms board.now) call.now taken) }
    {
        let Some(action) = action_at(self.task, step.action as usize) else {
            return Ok(Taken::Fails(StepFlaw::Action));
        };
        let state = board.state()?;
        let part = self.false_text(&state, &action.condition, step.args.as_slice())?;
        Ok(Taken::Fails(StepFlaw::Condition(part)))
    }
}
