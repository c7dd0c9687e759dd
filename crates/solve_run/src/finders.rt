//! The two ways in which modes look for plans.
ghost use Rattle.std.specs.Prelude.{IfOk, IsTrue, true, false};
ghost use Rattle.task_model.specs.Fit.{IsFit};
ghost use Rattle.task_model.specs.Plans.{IsSolvable};

use best_first::{Found, MOST_CANDIDATES, RelaxedPlan, out_of_reach, search};
use fact_store::Facts;
use grounder::StepFinder;
use optimal_search::{Shares, cheapest};
use std::alloc::{AllocError, Global};
use task_model::Task;
use turn_run::{PlanSearch, Situation};

/// Looks for any plan, by relaxed plans, which say how much is left and which steps help, where they
/// don't show that the goal is out of reach.
#[derive(Drop)]
pub(crate) struct ByEstimate;

impl PlanSearch for ByEstimate {
    ghost cheapest = { false };

    fn find(&self, situation: &Situation<'_>) -> Result<Option<Found>, AllocError> {
        let alloc = situation.alloc;
        let task = situation.task;
        let facts = situation.session.facts();
        let finder = Box::new(alloc, StepFinder::new(alloc, task, facts, MOST_CANDIDATES)?)?;
        let mut estimate = Box::new(alloc, RelaxedPlan::new(alloc, task, facts, &finder)?)?;
        if out_of_reach(alloc, task, facts, &*estimate)? {
            return Ok(None);
        }
        let states = situation.head.states;
        let found = search(alloc, task, facts, &finder, states, &mut *estimate)?;
        Ok(Some(found))
    }
}

/// Whether relaxed plans show that the goal is out of reach. Fails only where memory is wanting.
fn is_hopeless(alloc: Global, task: &Task, facts: &Facts) -> Result<bool, AllocError>
    requires { IsFit task.now }
    ensures { IfOk result (λ hopeless. IsTrue hopeless
        → ¬ (IsSolvable task.now facts.now.known)) }
{
    let finder = Box::new(alloc, StepFinder::new(alloc, task, facts, MOST_CANDIDATES)?)?;
    let estimate = Box::new(alloc, RelaxedPlan::new(alloc, task, facts, &finder)?)?;
    out_of_reach(alloc, task, facts, &*estimate)
}

/// Looks for a plan of least cost (A*) by what is missing of the goal, where relaxed plans don't show
/// that it is out of reach.
#[derive(Drop)]
pub(crate) struct ByCost;

impl PlanSearch for ByCost {
    ghost cheapest = { true };

    fn find(&self, situation: &Situation<'_>) -> Result<Option<Found>, AllocError> {
        let alloc = situation.alloc;
        let task = situation.task;
        let facts = situation.session.facts();
        if is_hopeless(alloc, task, facts)? {
            return Ok(None);
        }
        let mut estimate = Box::new(alloc, Shares::new(alloc, task, facts)?)?;
        let found = cheapest(alloc, task, facts, situation.head.states, &mut *estimate)?;
        Ok(Some(found))
    }
}
