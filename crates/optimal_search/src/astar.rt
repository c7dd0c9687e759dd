//! Search for a cheapest plan.
ghost use Rattle.std.specs.Prelude.{◌≡◌, ◌≤◌, ◌↔◌, IfOk};
ghost use Rattle.best_first.specs.Answer.{HasPlan, IsNothing, IsLimit};
ghost use Rattle.grounder.specs.Finder.{FindsSteps};
ghost use Rattle.optimal_search.specs.Answer.{ComesToLeast, IsCheapest, Visits};
ghost use Rattle.optimal_search.specs.Consistent.{StaysSuited};
ghost use Rattle.optimal_search.specs.Searches.{IsJustClosed};
ghost use Rattle.task_model.specs.Fit.{IsFit};
ghost use Rattle.task_model.specs.Plans.{IsReached, IsSolvable, MoreThan};
ghost use Rattle.task_model.specs.declared.limits.TheConstants.{MOST_STATES};

use crate::consistent::Consistent;
use crate::relax::{Expansion, Scene, relax_all};
use crate::search::Search;
use best_first::{Found, Link, MOST_CANDIDATES, path};
use grounder::StepFinder;
use plan_check::meets_goal;
use std::alloc::{AllocError, Global};
use task_model::{Look, Task};

/// How it goes on after a state was closed.
#[derive(Clone, Copy, PartialEq, Eq, Debug)]
pub(crate) enum Turn {
    /// All steps were taken from the state.
    On,
    /// The state meets the goal.
    Goal,
    /// More states are reached than the limit allows.
    More,
}

/// What an exploration comes to.
#[derive(Drop)]
pub(crate) enum Explored {
    /// The links to the states that were closed, the last of which meets the goal.
    Goal(Vec<Link>),
    /// All states that are reached were closed.
    All,
    /// More states are reached than the limit allows.
    More,
}

/// Tests the state that was closed last, at this place, and takes all steps from it if it doesn't
/// meet the goal. Fails only where memory is wanting.
fn visit<L: Look, C: Consistent>(
    alloc: Global,
    scene: &Scene<'_, L>,
    finder: &StepFinder,
    estimate: &mut C,
    search: &mut Search,
    place: u32,
) -> Result<Turn, AllocError>
    requires fit { IsFit scene.now.task.now }
    requires finds { FindsSteps scene.now.task.now (L.known scene.now.look.now) finder.now }
    requires taken { IsJustClosed scene.now.task.now (L.known scene.now.look.now)
        (C.bound estimate.old) scene.now.limit search.old place }
    ensures visits { IfOk result (Visits scene.now.task.now (L.known scene.now.look.now)
        (C.bound estimate.new) scene.now.limit search.new) }
    ensures links { search.new.links.items ≡ search.old.links.items }
    ensures suits { StaysSuited C.suits estimate.old estimate.new }
{
    let state = search.store.get(place)?;
    if meets_goal(scene.task, scene.look, &state) {
        return Ok(Turn::Goal);
    }
    let steps = finder.applicable(alloc, scene.task, scene.look, &state)?;
    let from = Expansion {
        number: search.links.len() as u32,
        place,
        cost: search.agenda.nodes[place as usize].cost,
        state,
        steps,
    };
    if relax_all(scene, estimate, search, &from)? {
        Ok(Turn::On)
    } else {
        Ok(Turn::More)
    }
}

/// Closes the states that are reached, the one with the least sum of what it costs to come there and
/// the estimate first, until one meets the goal, or there are more than the limit allows, or all
/// were closed (A*). Fails only where memory is wanting.
fn explore<L: Look, C: Consistent>(
    alloc: Global,
    scene: &Scene<'_, L>,
    estimate: &mut C,
) -> Result<Explored, AllocError>
    requires fit { IsFit scene.now.task.now }
    requires some { 1 ≤ scene.now.limit }
    requires few { scene.now.limit ≤ MOST_STATES }
    requires suits { C.suits estimate.old scene.now.task.now (L.known scene.now.look.now) }
    ensures { IfOk result (ComesToLeast scene.now.task.now (L.known scene.now.look.now)
        scene.now.limit) }
{
    let finder = StepFinder::new(alloc, scene.task, scene.look, MOST_CANDIDATES)?;
    let mut search = Search::new(alloc, scene.task)?;
    let mut place = 0;
    loop {
        match visit(alloc, scene, &finder, estimate, &mut search, place)? {
            Turn::On => {}
            Turn::Goal => return Ok(Explored::Goal(search.links)),
            Turn::More => return Ok(Explored::More),
        }
        match search.close_next()? {
            Some(next) => place = next,
            None => return Ok(Explored::All),
        }
    }
}

/// Looks for a plan of least cost among the states that are reached, at most `limit` of them, from 1
/// to 200,000 (A*: Hart, Nilsson and Raphael 1968).
///
/// No valid plan costs less than one that is answered. It has at most `limit` steps; its states are
/// distinct, and only the last of them meets the goal. `Nothing` comes exactly where there is no
/// valid plan and at most `limit` states are reached. `Limit` comes only where more than `limit`
/// states are reached; a plan may be within reach all the same. The estimate has to suit the task
/// and what is known. Fails only where memory is wanting.
pub fn cheapest<L: Look, C: Consistent>(
    alloc: Global,
    task: &Task,
    look: &L,
    limit: u32,
    estimate: &mut C,
) -> Result<Found, AllocError>
    requires fit { IsFit task.now }
    requires some { 1 ≤ limit }
    requires few { limit ≤ MOST_STATES }
    requires suits { C.suits estimate.old task.now (L.known look.now) }
    ensures plan { IfOk result (HasPlan task.now (L.known look.now) limit) }
    ensures least { IfOk result (IsCheapest task.now (L.known look.now)) }
    ensures nothing { IfOk result (λ found. IsNothing found
        ↔ ((¬ (IsSolvable task.now (L.known look.now)))
        × (¬ (MoreThan limit (IsReached task.now (L.known look.now)))))) }
    ensures limit { IfOk result (λ found. IsLimit found
        → MoreThan limit (IsReached task.now (L.known look.now))) }
{
    let scene = Scene { task, look, limit };
    match explore(alloc, &scene, estimate)? {
        Explored::Goal(links) => {
            let (plan, cost) = path(alloc, links.as_slice())?;
            Ok(Found::Plan(plan, cost))
        }
        Explored::All => Ok(Found::Nothing),
        Explored::More => Ok(Found::Limit),
    }
}
