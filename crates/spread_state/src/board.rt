//! States in which steps are taken one after another.
ghost use Rattle.std.specs.Prelude.{◌≡◌, ◌≤◌, IfOk, IfErr};
ghost use Rattle.plan_check.specs.Faults.{StepFails};
ghost use Rattle.plan_check.specs.declared.fault.StepFault.TheVariants.{Memory};
ghost use Rattle.task_model.specs.Fit.{IsFit};
ghost use Rattle.task_model.specs.State.{Atoms};
ghost use Rattle.task_model.specs.Steps.{IsStep};

use crate::advance::advance_spread;
use crate::cells::SpreadState;
use plan_check::{StepFault, advance};
use std::alloc::AllocError;
use task_model::{GroundAction, Look, State, Task};

/// A state in which steps are taken one after another.
pub trait Board: Drop {
    ghost atoms: { Self → Atoms };

    /// Takes the step in the state itself, and answers what it costs (PDDL 2.1; costs as in IPC
    /// 2008). Fails as `advance` of `plan_check` does, and leaves the state as it was; but where
    /// memory is wanting, the state is of no further use.
    fn advance<L: Look>(
        &mut self,
        task: &Task,
        look: &L,
        step: &GroundAction,
    ) -> Result<u64, StepFault>
        requires { IsFit task.now }
        ensures ok { IfOk result (λ cost. IsStep task.now (L.known look.now) (atoms self.old)
            step.now (atoms self.new) cost) }
        ensures err { IfErr result (StepFails task.now (L.known look.now) (atoms self.old)
            step.now) }
        ensures same { IfErr result (λ fault. ¬ (fault ≡ Memory) → atoms self.new
            ≡ atoms self.old) }
        ensures small { IfOk result (λ cost. cost ≤ 262144000000) };

    /// The state. Fails only where memory is wanting.
    fn state(&self) -> Result<State, AllocError>
        ensures { IfOk result (λ state. state ≡ atoms self.now) };
}

impl Board for State {
    ghost atoms = { λ s. s };

    fn advance<L: Look>(
        &mut self,
        task: &Task,
        look: &L,
        step: &GroundAction,
    ) -> Result<u64, StepFault> {
        advance(task, look, self, step)
    }

    fn state(&self) -> Result<State, AllocError> {
        self.copy()
    }
}

impl Board for SpreadState {
    ghost atoms = { λ s. s };

    fn advance<L: Look>(
        &mut self,
        task: &Task,
        look: &L,
        step: &GroundAction,
    ) -> Result<u64, StepFault> {
        advance_spread(task, look, self, step)
    }

    fn state(&self) -> Result<State, AllocError> {
        self.whole()
    }
}
