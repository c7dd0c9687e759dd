//! The estimate by relaxed plans.
ghost use Rattle.std.specs.Prelude.{IfOk};
ghost use Rattle.grounder.specs.Finder.{FindsSteps};
ghost use Rattle.task_model.specs.Fit.{IsFit};
ghost use Rattle.relaxed_task.specs.Room.{HasRoom};

use crate::estimate::Estimate;
use grounder::{Candidates, StepFinder};
use relaxed_task::{Guide, Sight};
use std::alloc::{AllocError, Global};
use task_model::{GroundAction, Look, State, Task};

/// What a step that is left counts.
const STEP: u64 = 1 << 40;

/// The most steps that are told apart.
const MOST_STEPS: u32 = (1 << 20) - 1;

/// What a state counts more that isn't new.
const KNOWN: u64 = 1 << 61;

/// How many steps later a step is taken that isn't wanted.
const DELAY: u64 = 10;

/// The estimate by a relaxed plan, in which deletes are ignored but for what conditions need false
/// (Hoffmann and Nebel 2001): 2^40 for each of its steps, at most 2^20 - 1, so that a state with fewer
/// steps left goes before one that was reached at less cost. A state counts 2^61 more that isn't new:
/// each of its atoms is one of a state from which as many steps are left and that was estimated
/// before (Lipovetzky and Geffner 2012). So what it answers depends on the states before. The steps
/// that it wants are those of the relaxed plan that can be taken at once (helpful actions), and the
/// others are taken as if the state had ten steps more left.
#[derive(Drop)]
pub struct RelaxedPlan {
    guide: Guide,
}

impl RelaxedPlan {
    /// The estimate for a task and what is known of it, which have these steps. It takes all its
    /// room here: 4,000,000 facts, rules, conditions and effects together, and 1 MiB for which
    /// states are new. Where a task has more, of its conditions the fluent atoms at the top count
    /// alone, and where there are more of these too, each estimate is 0. Fails only where memory is
    /// wanting.
    pub fn new<L: Look>(
        alloc: Global,
        task: &Task,
        look: &L,
        finder: &StepFinder,
    ) -> Result<RelaxedPlan, AllocError>
        requires fit { IsFit task.now }
        requires finds { FindsSteps task.now (L.known look.now) finder.now }
        ensures { IfOk result (λ estimate. HasRoom estimate.guide.relaxed) }
    {
        let guide = Guide::new(alloc, task, look, finder.candidates())?;
        Ok(RelaxedPlan { guide })
    }

    /// The atoms of fluents that are reached where deletes are ignored and of conditions the fluent
    /// atoms at the top count alone, or None where there was no room to find them. Nothing is claimed
    /// of them. Fails only where memory is wanting.
    pub(crate) fn reached(&self, alloc: Global) -> Result<Option<State>, AllocError> {
        match self.guide.reached(alloc)? {
            Some(atoms) => Ok(Some(State::from_atoms(atoms))),
            None => Ok(None),
        }
    }
}

impl Estimate for RelaxedPlan {
    ghost tells = { λ _ _ _ _. Unit {0} };

    fn estimate<L: Look>(&mut self, _task: &Task, _look: &L, state: &State) -> u64
        requires { IsFit _task.now }
    {
        match self.guide.look(state) {
            Sight::Unknown => 0,
            Sight::Hopeless => u64::MAX,
            Sight::Left { steps, is_new } => {
                let left = STEP.saturating_mul(u64::from(steps.min(MOST_STEPS)));
                if is_new {
                    left
                } else {
                    left.saturating_add(KNOWN)
                }
            }
        }
    }

    fn wants(&mut self, candidates: &Candidates, step: &GroundAction) -> bool {
        self.guide.wants(candidates, step)
    }

    fn delay(&self) -> u64 {
        STEP.saturating_mul(DELAY)
    }
}
