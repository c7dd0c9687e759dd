//! Search for plans.
ghost use Rattle.std.specs.Prelude.{◌≤◌, ◌↔◌, IfOk, IsTrue};
ghost use Rattle.grounder.specs.Finder.{FindsSteps};
ghost use Rattle.task_model.specs.Fit.{IsFit};
ghost use Rattle.task_model.specs.Plans.{IsFar, IsReached, IsSolvable, MoreThan};
ghost use Rattle.task_model.specs.declared.limits.TheConstants.{MOST_STATES};
ghost use Rattle.best_first.specs.Answer.{HasPlan, IsNothing, IsLimit, IsSolvableWithin};
ghost use Rattle.best_first.specs.Outcome.{ComesTo};

use crate::best::explore_best;
use crate::estimate::Estimate;
use crate::expand::Scene;
use crate::explore::{Explored, MOST_CANDIDATES, explore};
use crate::found::Found;
use crate::relaxed_plan::RelaxedPlan;
use crate::way::path;
use grounder::StepFinder;
use std::alloc::{AllocError, Global};
use task_model::{Look, Task};

/// Goes through the states that are reached, best first by the estimate, and where that meets the
/// limit, nearest first. Fails only where memory is wanting.
fn explore_with<L: Look, E: Estimate>(
    alloc: Global,
    scene: &Scene<'_, L>,
    finder: &StepFinder,
    estimate: &mut E,
) -> Result<Explored, AllocError>
    requires fit { IsFit scene.now.task.now }
    requires some { 1 ≤ scene.now.limit }
    requires limit { scene.now.limit ≤ MOST_STATES }
    requires seeks { IsTrue scene.now.seeks_goal }
    requires finds { FindsSteps scene.now.task.now (L.known scene.now.look.now) finder.now }
    ensures { IfOk result (ComesTo scene.now.task.now (L.known scene.now.look.now)
        scene.now.seeks_goal scene.now.limit) }
{
    match explore_best(alloc, scene, finder, estimate)? {
        Explored::Goal(tree) => Ok(Explored::Goal(tree)),
        Explored::All => Ok(Explored::All),
        Explored::More => explore(alloc, scene, finder),
    }
}

/// Looks for a valid plan among the states that are reached, at most `limit` of them, from 1 to
/// 200,000. The finder is that of the task over what is known.
///
/// A plan that is found has at most `limit` steps; its states are distinct, and only the last of
/// them meets the goal. `Nothing` comes exactly where there is no valid plan and at most `limit`
/// states are reached. `Limit` comes only where more than `limit` states are reached, and so many
/// also within the number of steps of each valid plan. All this holds whatever the estimate
/// answers: it says which state is expanded next, the one with the least sum of the cost so far and
/// the estimate, and of equal ones the oldest. Fails only where memory is wanting.
pub fn search<L: Look, E: Estimate>(
    alloc: Global,
    task: &Task,
    look: &L,
    finder: &StepFinder,
    limit: u32,
    estimate: &mut E,
) -> Result<Found, AllocError>
    requires fit { IsFit task.now }
    requires some { 1 ≤ limit }
    requires few { limit ≤ MOST_STATES }
    requires finds { FindsSteps task.now (L.known look.now) finder.now }
    ensures plan { IfOk result (HasPlan task.now (L.known look.now) limit) }
    ensures nothing { IfOk result (λ found. IsNothing found
        ↔ ((¬ (IsSolvable task.now (L.known look.now)))
        × (¬ (MoreThan limit (IsReached task.now (L.known look.now)))))) }
    ensures limit { IfOk result (λ found. IsLimit found → IsFar task.now (L.known look.now) limit) }
{
    let scene = Scene {
        task,
        look,
        limit,
        seeks_goal: true,
    };
    match explore_with(alloc, &scene, finder, estimate)? {
        Explored::Goal(tree) => {
            let (plan, cost) = path(alloc, tree.links.as_slice())?;
            Ok(Found::Plan(plan, cost))
        }
        Explored::All => Ok(Found::Nothing),
        Explored::More => Ok(Found::Limit),
    }
}

/// Whether there is a valid plan, or None where more than `most` states are reached; `most` is from 1
/// to 200,000. Fails only where memory is wanting.
pub fn is_solvable_within<L: Look>(
    alloc: Global,
    task: &Task,
    look: &L,
    most: u32,
) -> Result<Option<bool>, AllocError>
    requires fit { IsFit task.now }
    requires some { 1 ≤ most }
    requires few { most ≤ MOST_STATES }
    ensures { IfOk result (IsSolvableWithin task.now (L.known look.now) most) }
{
    let finder = Box::new(alloc, StepFinder::new(alloc, task, look, MOST_CANDIDATES)?)?;
    let mut estimate = Box::new(alloc, RelaxedPlan::new(alloc, task, look, &finder)?)?;
    match search(alloc, task, look, &finder, most, &mut *estimate)? {
        Found::Nothing => Ok(Some(false)),
        Found::Limit => Ok(None),
        Found::Plan(_, _) => {
            if exceeds(alloc, task, look, most)? {
                Ok(None)
            } else {
                Ok(Some(true))
            }
        }
    }
}

/// Whether more than `limit` states are reached, whatever the goal; `limit` is from 1 to 200,000.
/// Fails only where memory is wanting.
pub fn exceeds<L: Look>(
    alloc: Global,
    task: &Task,
    look: &L,
    limit: u32,
) -> Result<bool, AllocError>
    requires fit { IsFit task.now }
    requires some { 1 ≤ limit }
    requires few { limit ≤ MOST_STATES }
    ensures { IfOk result (λ more. IsTrue more
        ↔ MoreThan limit (IsReached task.now (L.known look.now))) }
{
    let scene = Scene {
        task,
        look,
        limit,
        seeks_goal: false,
    };
    let finder = Box::new(alloc, StepFinder::new(alloc, task, look, MOST_CANDIDATES)?)?;
    match explore(alloc, &scene, &finder)? {
        Explored::More => Ok(true),
        Explored::Goal(_) | Explored::All => Ok(false),
    }
}
