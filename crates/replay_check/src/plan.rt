//! Whether the plan that a report shows is valid, costs what it says, and has its origins.
ghost use Rattle.std.specs.Prelude.{IfOk};
ghost use Rattle.learning.specs.Knowledge.{IsKnowledge};
ghost use Rattle.transcript_model.specs.Legal.{IsLegal};
ghost use Rattle.transcript_model.specs.Transcript.{known_of};
ghost use Rattle.shown_steps.specs.Plans.{IsPlan};
ghost use Rattle.replay_check.specs.Plans.{IsNear, IsPlanned};
ghost use Rattle.replay_check.specs.Standings.{AreBounds};

use crate::bounds::Bounds;
use crate::origins::first_difference;
use learning::Knowledge;
use shown_plan::plan_origins;
use shown_steps::{Ran, run_steps};
use std::alloc::AllocError;
use transcript_model::{Call, Entry, Origin};

/// The plan of an outcome, as a report shows it.
#[derive(Drop)]
pub(crate) struct ShownPlan<'a> {
    pub(crate) entries: &'a [Entry],
    pub(crate) calls: &'a [Call],
    pub(crate) cost: u64,
    pub(crate) from: &'a [Origin],
}

/// What is said of a plan.
#[derive(Clone, Copy, PartialEq, Eq)]
pub enum Planned {
    /// It is right.
    Right,
    /// The step at this place, from 0, can't be taken.
    Stuck(usize),
    /// It doesn't reach the goal.
    NoGoal,
    /// It costs another sum.
    WrongCost,
    /// The origin at this place, from 0, isn't the one that is due.
    WrongOrigin(usize),
}

/// Whether the shown origins are those of the valid plan.
fn judge_origins(bounds: &Bounds<'_>, plan: &ShownPlan<'_>) -> Result<Planned, AllocError>
    requires bounds { AreBounds bounds.now }
    requires legal { IsLegal bounds.now.version bounds.now.task.now plan.now.entries.now }
    requires plan { IsPlan bounds.now.task.now (known_of bounds.now.task.now plan.now.entries.now)
        plan.now.calls.now plan.now.cost }
    ensures said { IfOk result (IsPlanned bounds.now.version bounds.now.task.now
        plan.now.entries.now plan.now.calls.now plan.now.cost plan.now.from.now) }
    ensures near { IfOk result IsNear }
{
    let due = plan_origins(bounds.alloc, bounds.version, plan.entries, plan.calls)?;
    match first_difference(plan.from, due.as_slice()) {
        Some(place) => Ok(Planned::WrongOrigin(place)),
        None => Ok(Planned::Right),
    }
}

/// Judges the plan over what is known.
pub(crate) fn judge_plan(
    bounds: &Bounds<'_>,
    knowledge: &Knowledge,
    plan: &ShownPlan<'_>,
) -> Result<Planned, AllocError>
    requires bounds { AreBounds bounds.now }
    requires knowledge { IsKnowledge bounds.now.version bounds.now.task.now plan.now.entries.now
        knowledge.now }
    ensures said { IfOk result (IsPlanned bounds.now.version bounds.now.task.now
        plan.now.entries.now plan.now.calls.now plan.now.cost plan.now.from.now) }
    ensures near { IfOk result IsNear }
{
    let run = match run_steps(
        bounds.alloc,
        bounds.task,
        &knowledge.facts,
        &knowledge.facts,
        plan.calls,
    )? {
        Ran::Stops(place) => return Ok(Planned::Stuck(place)),
        Ran::Ends(run) => run,
    };
    if !run.reaches_goal(bounds.task, &knowledge.facts) {
        return Ok(Planned::NoGoal);
    }
    if !run.costs(plan.cost) {
        return Ok(Planned::WrongCost);
    }
    judge_origins(bounds, plan)
}
