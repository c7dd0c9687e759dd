//! The steps of a plan, taken one after another.
ghost use Rattle.std.specs.Prelude.{◌≡◌, ◌+◌, ℕ, List, IfOk, OnOk, IsTrue, ◌↔◌, Some, true, false, take};
ghost use Rattle.shown_steps.specs.Runs.{IsRan, IsRunOf, IsStepTaken, IsSum};
ghost use Rattle.plan_check.specs.declared.fault.StepFault.TheVariants.{Memory};
ghost use Rattle.task_model.specs.Fit.{IsFit};
ghost use Rattle.task_model.specs.Plans.{IsGoal};
ghost use Rattle.transcript_model.specs.declared.entry.Call.{Call as AnyCall};

use crate::names::Named;
use crate::naming::step_of;
use plan_check::{StepFault, advance, initial, meets_goal};
use std::alloc::{AllocError, Global};
use task_model::{Look, State, Task};
use transcript_model::Call;

/// Where steps lead from the initial state.
#[derive(Drop)]
pub struct Run {
    /// The state behind them.
    pub state: State,
    /// What they cost together, unless that is 2^64 or more.
    pub cost: Option<u64>,
}

/// The sum, unless it is 2^64 or more.
fn plus(cost: Option<u64>, more: u64) -> Option<u64>
    ensures { (total : ℕ) → IsSum total cost → IsSum (total + more) result }
{
    match cost {
        Some(cost) => cost.checked_add(more),
        None => None,
    }
}

/// Fails where the fault is that memory is wanting.
fn unless_memory(fault: StepFault) -> Result<(), AllocError>
    ensures { OnOk result (¬ (fault ≡ Memory)) }
{
    match fault {
        StepFault::Memory => Err(AllocError),
        _ => Ok(()),
    }
}

impl Run {
    /// Whether the steps cost this together.
    pub fn costs(&self, cost: u64) -> bool
        ensures { IsTrue result ↔ (self.now.cost ≡ Some cost) }
    {
        match self.cost {
            Some(sum) => sum == cost,
            None => false,
        }
    }

    /// Whether the goal is true in the state.
    pub fn reaches_goal<L: Look>(&self, task: &Task, look: &L) -> bool
        requires { IsFit task.now }
        ensures { IsTrue result ↔ IsGoal task.now (L.known look.now) self.now.state }
    {
        meets_goal(task, look, &self.state)
    }

    /// Takes one more step, and answers whether it can be taken.
    fn take<L: Look, T: Named>(
        &mut self,
        alloc: Global,
        task: &Task,
        look: &L,
        table: &T,
        call: &Call,
    ) -> Result<bool, AllocError>
        requires fit { IsFit task.now }
        requires names { T.names table.now ≡ (L.known look.now).names }
        ensures { (calls : List AnyCall) → IsRunOf task.now (L.known look.now) calls self.old
            → IfOk result (IsStepTaken task.now (L.known look.now) calls call.now self.new) }
    {
        let Some(step) = step_of(alloc, task, table, call)? else {
            return Ok(false);
        };
        match advance(task, look, &mut self.state, &step) {
            Ok(cost) => {
                self.cost = plus(self.cost, cost);
                Ok(true)
            }
            Err(fault) => {
                unless_memory(fault)?;
                Ok(false)
            }
        }
    }
}

/// Where calls lead.
#[derive(Drop)]
pub enum Ran {
    /// The one at this place, from 0, can't be taken, and those before it can.
    Stops(usize),
    /// All can be.
    Ends(Run),
}

/// Takes the steps that the calls show one after another, from the initial state on, over what is
/// known. The table has the names of its objects. Fails only where memory is wanting.
pub fn run_steps<L: Look, T: Named>(
    alloc: Global,
    task: &Task,
    look: &L,
    table: &T,
    calls: &[Call],
) -> Result<Ran, AllocError>
    requires fit { IsFit task.now }
    requires names { T.names table.now ≡ (L.known look.now).names }
    ensures { IfOk result (IsRan task.now (L.known look.now) calls.now) }
{
    let mut run = Run {
        state: initial(alloc, task)?,
        cost: Some(0),
    };
    for (place, call) in calls.iter().enumerate() {
        if !run.take(alloc, task, look, table, call)? {
            return Ok(Ran::Stops(place));
        }
    }
    Ok(Ran::Ends(run))
}
